// Matching: whether a right key may be chosen for a left one, which of two is nearer, which takes the place of the other, and when one is too far.
ghost use Rattle.std.specs.Prelude.{◌≡◌, not, ◌&&◌, ◌<◌, ltb, pos, nat_abs, ◌-ℤ◌};
ghost use Rattle.std.specs.Int.Signed.{le_z};
ghost use Rattle.frames.specs.Cells.{value, is_null};
ghost use Rattle.order.specs.options.Options.{key_rule};
ghost use Rattle.order.specs.Order.{cmp_cell};
ghost use Rattle.order.specs.Requires.{cell_at, CellIn};
ghost use Rattle.matching.specs.Match.{on_side, nearer};
ghost use Rattle.matching.specs.Loops.{TakesOver};

use frames::RowSlice;
use order::options::Strategy;
use rows::cells::{cmp_cell, distance};
use rows::keyed::null_at;
use std::cmp::Ordering;

// Whether a right key lies on the strategy's side of a left one, by its order to it.
fn on_side(s: Strategy, eq: bool, c: Ordering) -> bool
    ensures { result ≡ on_side s eq c }
{
    // A match: each strategy has its own arm in the definition too.
    match s {
        // Backward "selects the last row in the right DataFrame whose 'on' key is less than or
        // equal to the left's key."
        Strategy::Backward => match c {
            Ordering::Less => true,
            Ordering::Equal => eq,
            Ordering::Greater => false,
        },
        // Forward "selects the first row in the right DataFrame whose 'on' key is greater than or
        // equal to the left's key."
        Strategy::Forward => match c {
            Ordering::Less => false,
            Ordering::Equal => eq,
            Ordering::Greater => true,
        },
        // Nearest "selects the last row in the right DataFrame whose value is nearest to the left's
        // key."
        Strategy::Nearest => true,
    }
}

// Whether the right key at place k may be chosen for the left key v: it is not null and lies on the strategy's side.
pub fn fits_key(right: RowSlice<'_>, k: usize, v: i64, s: Strategy, eq: bool) -> bool
    requires { CellIn k right.values.now right.marks.now }
    ensures { result ≡ (not (is_null (cell_at k right.entry.values.now right.entry.marks.now)) && on_side s eq (cmp_cell key_rule (cell_at k right.entry.values.now right.entry.marks.now) (value v))) }
{
    if null_at(right.marks, k) {
        return false;
    }
    on_side(s, eq, cmp_cell(right.values[k], 1, v, 1, false, false))
}

// Whether a is nearer to v than b, which stands before it: by distance, then the greater key, then the last position.
pub fn nearer_key(v: i64, a: i64, b: i64) -> bool
    ensures { result ≡ nearer (value v) (value a) (value b) }
{
    let x = distance(a, v);
    let y = distance(b, v);
    if x < y {
        return true;
    }
    if y < x {
        return false;
    }
    if a < b {
        return false;
    }
    true
}

// Whether a row with key a takes the place of one with key b, which stands before it.
pub fn takes_over(s: Strategy, v: i64, a: i64, b: i64) -> bool
    ensures { TakesOver s v a b result }
{
    // A match: each strategy has its own arm in the definition too.
    match s {
        // Backward "selects the last row in the right DataFrame whose 'on' key is less than or
        // equal to the left's key."
        Strategy::Backward => true,
        // Forward "selects the first row in the right DataFrame whose 'on' key is greater than or
        // equal to the left's key."
        Strategy::Forward => false,
        // Nearest "selects the last row in the right DataFrame whose value is nearest to the left's
        // key."
        Strategy::Nearest => nearer_key(v, a, b),
    }
}

// Whether the distance of two keys is above the tolerance; below 0 there is none.
pub fn too_far(a: i64, v: i64, tolerance: i64) -> bool
    ensures { result ≡ (le_z (pos 0) tolerance && ltb (nat_abs tolerance) (nat_abs (a -ℤ v))) }
{
    if tolerance < 0 {
        return false;
    }
    (tolerance as u64) < distance(a, v)
}
