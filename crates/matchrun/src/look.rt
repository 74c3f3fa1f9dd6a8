// Looks over a right run in any order: the last row that fits a left key for Backward, the first one that fits it for Forward.
ghost use Rattle.std.specs.Prelude.{◌≡◌, true, ℕ, ◌+◌, ◌*◌, ◌≤◌, ◌<◌, pos, length, get_or};
ghost use Rattle.std.specs.Int.Signed.{lt_z};
ghost use Rattle.frames.specs.Cells.{value};
ghost use Rattle.order.specs.options.Options.{without_list};
ghost use Rattle.order.specs.Requires.{cell_at, CellIn, RowsIn};
ghost use Rattle.order.specs.declared.options.Strategy.TheVariants.{Forward};
ghost use Rattle.matching.specs.Moves.{fits_key, key_at};
ghost use Rattle.matchrun.specs.look.Fit.{Above, LastFit, FirstFit};

use crate::fits::fits_key;
use frames::RowSlice;
use order::options::{Strategy, Terms};

// Whether the value at place k is above v.
fn above(rv: &[i64], k: usize, v: i64) -> bool
    requires { k < length rv.now }
    ensures { result ≡ lt_z v (get_or rv.now k (pos 0)) }
{
    v < rv[k]
}

// Whether the values of the four rows before row i are all above v.
fn four_above(rv: &[i64], i: usize, w: usize, by: usize, v: i64) -> bool
    requires { (4 ≤ i) × (by < w) × (i * w ≤ length rv.now) }
    ensures { result ≡ true → (k : ℕ) → i ≤ k + 4 → k < i → lt_z v (get_or rv.now (k * w + by) (pos 0)) ≡ true }
{
    let a = (i - 4) * w + by;
    if !above(rv, a, v) {
        return false;
    }
    let b = a + w;
    if !above(rv, b, v) {
        return false;
    }
    let c = b + w;
    if !above(rv, c, v) {
        return false;
    }
    above(rv, c + w, v)
}

// A row of at..end, or `end`, from which on all values are above v: looked for from the end back, four rows at a time.
fn skip_above(rv: &[i64], at: usize, end: usize, w: usize, by: usize, v: i64) -> usize
    requires { (at ≤ end) × (by < w) × (end * w ≤ length rv.now) }
    ensures { Above w by at end rv.now v result }
{
    let mut i = end;
    // A while: four rows a turn, and the row where it stops is returned.
    while 3 < i - at {
        if !four_above(rv, i, w, by, v) {
            return i;
        }
        i -= 4;
    }
    i
}

// Behind the last row of at..end that fits v for Backward, looked for from the end back; `at` where none does.
pub fn last_fit(right: RowSlice<'_>, at: usize, end: usize, v: i64, eq: bool, o: Terms) -> usize
    requires { RowsIn (without_list o) right.width end right.values.now right.marks.now × (at ≤ end) }
    ensures { LastFit eq (key_at (without_list o) right.entry.width right.entry.values.now right.entry.marks.now) at end (value v) result }
{
    let by = o.by;
    let below = skip_above(right.values, at, end, right.width, by, v);
    for i in (at..below).rev() {
        let k = i * right.width + by;
        if fits_key(right, k, v, Strategy::Backward, eq) {
            return i + 1;
        }
    }
    at
}

// Whether the right key at place k fits v for Forward. A value below v is told first: its mark need not be read.
fn fits_fore(right: RowSlice<'_>, k: usize, v: i64, eq: bool) -> bool
    requires { CellIn k right.values.now right.marks.now }
    ensures { result ≡ fits_key Forward eq (value v) (cell_at k right.entry.values.now right.entry.marks.now) }
{
    if right.values[k] < v {
        return false;
    }
    fits_key(right, k, v, Strategy::Forward, eq)
}

// The first row of at..end that fits v for Forward; `end` where none does.
pub fn first_fit(right: RowSlice<'_>, at: usize, end: usize, v: i64, eq: bool, o: Terms) -> usize
    requires { RowsIn (without_list o) right.width end right.values.now right.marks.now × (at ≤ end) }
    ensures { FirstFit eq (key_at (without_list o) right.entry.width right.entry.values.now right.entry.marks.now) at end (value v) result }
{
    let by = o.by;
    for i in at..end {
        let k = i * right.width + by;
        if fits_fore(right, k, v, eq) {
            return i;
        }
    }
    end
}
