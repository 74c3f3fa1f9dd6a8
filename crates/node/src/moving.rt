// A join moved to other areas, of any lengths: what waits and what is held is copied to their fronts.
ghost use Rattle.std.specs.Prelude.{◌≡◌, ◌≤◌, length, take, drop};
ghost use Rattle.buffer.specs.area.Area.{written};
ghost use Rattle.node.specs.moves.Moves.{no_room_in, MoveContract};
ghost use Rattle.node.specs.moves.Requires.{LeftIn, BothFit, RightIn, right_copied};

use crate::{Join, TookJoin, bad_join};
use buffer::area::{append, held_marks, held_values};
use frames::refusals::Refusal;
use order::options::{right_columns, terms_of};

// Copies words to the front of an area that has room for them.
fn copy_front(area: &mut [i64], words: &[i64])
    requires { length words.now ≤ length area.old }
    ensures { area.new ≡ written words.now 0 area.old }
{
    append(area, 0, 0, words);
}

// Copies n words of the left area, from `start` on, to the front of another.
fn copy_left(left: &[i64], start: usize, n: usize, to: &mut [i64])
    requires { LeftIn start n left.now to.old }
    ensures { to.new ≡ written (take n (drop start left.now)) 0 to.old }
{
    let e = start + n;
    copy_front(to, &left[start..e]);
}

// Copies values to the front of an area, and marks to the place `half`, which is behind them.
fn copy_both(values: &[i64], marks: &[i64], half: usize, to: &mut [i64])
    requires { BothFit half values.now marks.now to.old }
    ensures { to.new ≡ written marks.now half (written values.now 0 to.old) }
{
    copy_front(to, values);
    copy_front(&mut to[half..], marks);
}

// Copies the held rows of the right area to another: their values to its front, their marks to the front of its second half.
fn copy_right(right: &[i64], base: usize, held: usize, c: usize, to: &mut [i64])
    requires { RightIn c base held right.now to.old }
    ensures { to.new ≡ right_copied c base held right.now to.old }
{
    let n = held * c;
    let half = to.len() / (2 * c) * c;
    let values = held_values(right, base, c);
    let marks = held_marks(right, base, c);
    copy_both(&values[..n], &marks[..n], half, to);
}

// Whether areas have no room for the words that wait, or for the rows that are held.
fn no_room(j: Join, left: &[i64], right: &[i64]) -> bool
    requires { (j.options.by ≤ 4) × (j.options.carried ≤ 8) }
    ensures { result ≡ no_room_in j left.now right.now }
{
    if left.len() < j.queue_words {
        return true;
    }
    let c = right_columns(terms_of(j.options));
    right.len() / (2 * c) < j.held
}

// Moves a join with what waits and what is held to new areas, whose other words stay. The old areas are only read. Refused by 2 and 6 alone: a join that has
// failed or ended stays what it is.
pub fn move_join(
    j: Join,
    left: &[i64],
    right: &[i64],
    new_left: &mut [i64],
    new_right: &mut [i64],
) -> TookJoin
    ensures { MoveContract j left.now right.now new_left.old new_right.old result new_left.new new_right.new }
{
    if bad_join(j, left, right) {
        return TookJoin {
            answer: Err(Refusal::BadJoin),
            join: j,
        };
    }
    if no_room(j, new_left, new_right) {
        return TookJoin {
            answer: Err(Refusal::NoRoom),
            join: j,
        };
    }
    copy_left(left, j.queue_start, j.queue_words, new_left);
    let c = right_columns(terms_of(j.options));
    copy_right(right, j.base, j.held, c, new_right);
    TookJoin {
        answer: Ok(()),
        join: Join {
            base: 0,
            queue_start: 0,
            ..j
        },
    }
}
