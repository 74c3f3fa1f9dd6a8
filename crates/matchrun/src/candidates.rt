// Candidates: the part of a right run outside of which no row of a sorted left run finds its match.
ghost use Rattle.std.specs.Prelude.{◌≡◌, ◌≤◌};
ghost use Rattle.order.specs.options.Options.{without_list, strategy_of};
ghost use Rattle.order.specs.Requires.{RowsIn};
ghost use Rattle.order.specs.declared.options.Strategy.TheVariants.{Backward, Forward, Nearest};
ghost use Rattle.matchrun.specs.candidates.Part.{Cut, LeftRun, Candidates};

use crate::cursor::first_key;
use crate::look::{first_fit, last_fit};
use frames::RowSlice;
use order::options::{Strategy, Terms, strategy_of};

// Rows from..to of a run.
#[derive(Clone, Copy)]
pub struct Part {
    pub from: usize,
    pub to: usize,
}

// Backward: behind the last row that fits l no row fits a key up to l; before the last row that fits f no row is chosen for a key from f on.
fn backward_part(right: RowSlice<'_>, at: usize, end: usize, f: i64, l: i64, o: Terms) -> Part
    requires { RowsIn (without_list o) right.width end right.values.now right.marks.now × (at ≤ end) × (strategy_of (without_list o) ≡ Backward) }
    ensures { Cut (without_list o) right.entry.width at end right.entry.values.now right.entry.marks.now f l result }
{
    let to = last_fit(right, at, end, l, o.allow_eq, o);
    let from = last_fit(right, at, to, f, o.allow_eq, o);
    if from == at {
        return Part { from: at, to: to };
    }
    Part {
        from: from - 1,
        to: to,
    }
}

// Forward: before the first row that fits f no row fits a key from f on; behind the first row that fits l no row is chosen for a key up to l.
fn forward_part(right: RowSlice<'_>, at: usize, end: usize, f: i64, l: i64, o: Terms) -> Part
    requires { RowsIn (without_list o) right.width end right.values.now right.marks.now × (at ≤ end) × (strategy_of (without_list o) ≡ Forward) }
    ensures { Cut (without_list o) right.entry.width at end right.entry.values.now right.entry.marks.now f l result }
{
    let from = first_fit(right, at, end, f, o.allow_eq, o);
    let to = first_fit(right, from, end, l, o.allow_eq, o);
    if to == end {
        return Part {
            from: from,
            to: end,
        };
    }
    Part {
        from: from,
        to: to + 1,
    }
}

// Nearest, of one left key v: the last row with that key, if no row with a key below it stands behind it; else the whole run.
fn nearest_part(right: RowSlice<'_>, at: usize, end: usize, v: i64, o: Terms) -> Part
    requires { RowsIn (without_list o) right.width end right.values.now right.marks.now × (at ≤ end) × (strategy_of (without_list o) ≡ Nearest) }
    ensures { Cut (without_list o) right.entry.width at end right.entry.values.now right.entry.marks.now v v result }
{
    let to = last_fit(right, at, end, v, true, o);
    if to == at {
        return Part { from: at, to: end };
    }
    let by = o.by;
    let last = (to - 1) * right.width + by;
    if right.values[last] < v {
        return Part { from: at, to: end };
    }
    Part {
        from: to - 1,
        to: to,
    }
}

// The part of rows at..end outside of which no left row with a key from f to l finds its match.
fn part_of(right: RowSlice<'_>, at: usize, end: usize, f: i64, l: i64, o: Terms) -> Part
    requires { RowsIn (without_list o) right.width end right.values.now right.marks.now × (at ≤ end) }
    ensures { Cut (without_list o) right.entry.width at end right.entry.values.now right.entry.marks.now f l result }
{
    let s = strategy_of(o);
    // A match: each strategy has its own arm in the definition too.
    match s {
        // Backward "selects the last row in the right DataFrame whose 'on' key is less than or
        // equal to the left's key."
        Strategy::Backward => backward_part(right, at, end, f, l, o),
        // Forward "selects the first row in the right DataFrame whose 'on' key is greater than or
        // equal to the left's key."
        Strategy::Forward => forward_part(right, at, end, f, l, o),
        // Nearest "selects the last row in the right DataFrame whose value is nearest to the left's
        // key."
        Strategy::Nearest => {
            if f < l {
                return Part { from: at, to: end };
            }
            nearest_part(right, at, end, f, o)
        }
    }
}

// The part of right rows at..end outside of which no left row of from..to, which are sorted by key, finds its match.
pub fn candidates(
    left: RowSlice<'_>,
    from: usize,
    to: usize,
    right: RowSlice<'_>,
    at: usize,
    end: usize,
    o: Terms,
) -> Part
    requires { LeftRun (without_list o) left.width from to left.values.now left.marks.now × RowsIn (without_list o) right.width end right.values.now right.marks.now × (at ≤ end) }
    ensures { Candidates (without_list o) left.entry.width from to left.entry.values.now left.entry.marks.now right.entry.width at end right.entry.values.now right.entry.marks.now result }
{
    let i = first_key(left.marks, from, to, left.width, o);
    if i == to {
        return Part { from: at, to: at };
    }
    let by = o.by;
    let p = i * left.width + by;
    let q = (to - 1) * left.width + by;
    part_of(right, at, end, left.values[p], left.values[q], o)
}
