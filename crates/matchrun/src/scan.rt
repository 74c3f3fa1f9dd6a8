// Matching: the right row that the strategy chooses for a left row, among the rows of a run, sorted or not, by looking at each.
ghost use Rattle.std.specs.Prelude.{◌≡◌, List, ℕ, ◌+◌, ◌<◌, ◌≤◌};
ghost use Rattle.frames.specs.Cells.{Cell, value, row_from};
ghost use Rattle.order.specs.options.Options.{without_list, strategy_of};
ghost use Rattle.order.specs.Order.{key_of};
ghost use Rattle.order.specs.Requires.{RowsIn};
ghost use Rattle.matching.specs.Match.{nobody, fits, choose, match_in};
ghost use Rattle.matching.specs.Stretches.{between, hit_at};
ghost use Rattle.matching.specs.Loops.{BestIn, Meets, Met};
ghost use Rattle.matching.specs.Requires.{RowRoom};

use crate::fits::{fits_key, takes_over, too_far};
use frames::RowSlice;
use order::options::{Strategy, Terms, strategy_of};
use rows::keyed::null_at;

// The best of what was the best and row j, which stands behind it; `to` stands for none.
fn meet_row(
    right: RowSlice<'_>,
    best: usize,
    j: usize,
    to: usize,
    v: i64,
    s: Strategy,
    o: Terms,
) -> usize
    requires { Meets (without_list o) s right.width to right.values.now right.marks.now best j }
    ensures { Met (without_list o) right.entry.width to right.entry.values.now right.entry.marks.now best j v result }
{
    let by = o.by;
    let k = j * right.width + by;
    if !fits_key(right, k, v, s, o.allow_eq) {
        return best;
    }
    if best == to {
        return j;
    }
    let b = best * right.width + by;
    if takes_over(s, v, right.values[k], right.values[b]) {
        return j;
    }
    best
}

// The best row of from..to for the left key v by the strategy s, by its index; `to` where there is none.
fn best_row(right: RowSlice<'_>, from: usize, to: usize, v: i64, s: Strategy, o: Terms) -> usize
    requires { RowsIn (without_list o) right.width to right.values.now right.marks.now × (from ≤ to) × (s ≡ strategy_of (without_list o)) }
    ensures { BestIn (without_list o) right.entry.width to right.entry.values.now right.entry.marks.now result × ((first : ℕ) (x : List Cell) → key_of (without_list o) x ≡ value v → hit_at first right.entry.width to right.entry.values.now right.entry.marks.now result ≡ choose (without_list o) x (fits (without_list o) x) nobody (first + from) (between right.entry.width from to right.entry.values.now right.entry.marks.now)) }
{
    let mut best = to;
    for j in from..to {
        best = meet_row(right, best, j, to, v, s, o);
    }
    best
}

// The best row of from..to for the left key v, by its index; `to` where there is none. The strategies stand in the order of the join_asof documentation, each headed by its sentence.
#[inline(always)]
fn choose_row(right: RowSlice<'_>, from: usize, to: usize, v: i64, o: Terms) -> usize
    requires { RowsIn (without_list o) right.width to right.values.now right.marks.now × (from ≤ to) }
    ensures { BestIn (without_list o) right.entry.width to right.entry.values.now right.entry.marks.now result × ((first : ℕ) (x : List Cell) → key_of (without_list o) x ≡ value v → hit_at first right.entry.width to right.entry.values.now right.entry.marks.now result ≡ choose (without_list o) x (fits (without_list o) x) nobody (first + from) (between right.entry.width from to right.entry.values.now right.entry.marks.now)) }
{
    let s = strategy_of(o);
    // A match: each strategy has its own arm in the definition too.
    match s {
        // Backward "selects the last row in the right DataFrame whose 'on' key is less than or
        // equal to the left's key."
        Strategy::Backward => best_row(right, from, to, v, Strategy::Backward, o),
        // Forward "selects the first row in the right DataFrame whose 'on' key is greater than or
        // equal to the left's key."
        Strategy::Forward => best_row(right, from, to, v, Strategy::Forward, o),
        // Nearest "selects the last row in the right DataFrame whose value is nearest to the left's
        // key."
        Strategy::Nearest => best_row(right, from, to, v, Strategy::Nearest, o),
    }
}

// The choice for the left row at p among right rows from..to, each w wide; row i of them has the number `number` + i.
#[inline(always)]
pub fn match_row(
    left: RowSlice<'_>,
    p: usize,
    right: RowSlice<'_>,
    from: usize,
    to: usize,
    number: usize,
    o: Terms,
) -> Option<usize>
    requires { RowRoom (without_list o) p left.values.now left.marks.now right.width from to right.values.now right.marks.now number }
    ensures { (wl : ℕ) → o.by < wl → result ≡ match_in (without_list o) (number + from) (between right.entry.width from to right.entry.values.now right.entry.marks.now) (row_from wl p left.entry.values.now left.entry.marks.now) }
{
    let by = o.by;
    let k = p + by;
    if null_at(left.marks, k) {
        return None;
    }
    let v = left.values[k];
    let best = choose_row(right, from, to, v, o);
    if best == to {
        return None;
    }
    let q = best * right.width + by;
    if too_far(right.values[q], v, o.tolerance) {
        return None;
    }
    Some(number + best)
}
