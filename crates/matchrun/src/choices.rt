// A row's choice: a right row unless it is too far, and its two words in an answer.
ghost use Rattle.std.specs.Prelude.{◌≡◌, ◌+◌, ◌^◌, ◌<◌, pos, length, get_or, set};
ghost use Rattle.matching.specs.Answer.{number_word, choice_mark};
ghost use Rattle.matching.specs.Loops.{Small, PutRoom};
ghost use Rattle.matchrun.specs.choices.Choices.{unless_far, NothingRoom, NothingLaid};

use crate::fits::too_far;

// The right number of a choice; 0 for none.
fn number_word(choice: Option<usize>) -> i64
    requires { Small choice }
    ensures { result ≡ number_word choice }
{
    match choice {
        Some(i) => i as i64,
        None => 0,
    }
}

// The mark of a choice: 1, or 0 for none.
fn choice_mark(choice: Option<usize>) -> i64
    ensures { result ≡ choice_mark choice }
{
    match choice {
        Some(_) => 1,
        None => 0,
    }
}

// The choice of row i goes to its two places in an answer of m cells.
pub fn put(out: &mut [i64], m: usize, i: usize, choice: Option<usize>)
    requires { PutRoom m i out.old × Small choice }
    ensures { out.new ≡ set (set out.old (2 + i) (number_word choice)) (2 + m + i) (choice_mark choice) }
{
    out[2 + i] = number_word(choice);
    out[2 + m + i] = choice_mark(choice);
}

// Nothing is the choice of rows from..to.
pub fn put_nothing(out: &mut [i64], m: usize, from: usize, to: usize)
    requires { NothingRoom m from to out.old }
    ensures { NothingLaid m from to out.old out.new }
{
    for i in from..to {
        put(out, m, i, None);
    }
}

// Row n, whose key is at place k, unless it is too far from v.
pub fn near_row(rv: &[i64], k: usize, v: i64, tolerance: i64, n: usize) -> Option<usize>
    requires { (k < length rv.now) × (n < 2 ^ 63) }
    ensures { Small result × (result ≡ unless_far tolerance v (get_or rv.now k (pos 0)) n) }
{
    if too_far(rv[k], v, tolerance) {
        return None;
    }
    Some(n)
}
