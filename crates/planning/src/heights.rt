// The heights of a table's frames: whether they cut it, and each as a number.
ghost use Rattle.std.specs.Prelude.{◌≡◌, not, pos, nat_abs, get_or};
ghost use Rattle.planning.specs.Heights.{height_within, bad_heights, HeightIn};

// Whether a word is the height of a frame, 0 to 4,096, and at most the rows that are left.
fn is_height(word: i64, left: usize) -> bool
    ensures { result ≡ height_within left word }
{
    if word < 0 {
        return false;
    }
    if 4096 < word {
        return false;
    }
    word as usize <= left
}

// Height i as a number.
pub fn height_at(heights: &[i64], i: usize) -> usize
    requires { HeightIn i heights.now }
    ensures { result ≡ nat_abs (get_or heights.now i (pos 0)) }
{
    heights[i] as usize
}

// Whether these are heights of frames that make a table of n rows. What is left of n is counted down, so that no sum can wrap.
pub fn fit_heights(heights: &[i64], n: usize) -> bool
    ensures { result ≡ not (bad_heights n heights.now) }
{
    let mut left = n;
    for &word in heights {
        if !is_height(word, left) {
            return false;
        }
        left -= word as usize;
    }
    left == 0
}
