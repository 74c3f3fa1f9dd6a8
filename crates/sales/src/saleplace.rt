// Where a sale's group stands among rows of subtotals, each w wide, that words hold without marks.
ghost use Rattle.std.specs.Prelude.{suc};
ghost use Rattle.frames.specs.Cells.{row_from};
ghost use Rattle.order.specs.options.Options.{options_of};
ghost use Rattle.sales.specs.saleplace.Place.{cmp_one, SingleIn, PlaceIn, PlacedBy, Placed};

use crate::salegroup::{cmp_all, cmp_first, cmp_sale, is_single};
use frames::RowSlice;
use order::options::{Rules, Terms};
use std::cmp::Ordering;

// The row of a group; or, if none is here, the row before which it belongs. A struct and no Result: put_behind, add_sale and count_ordered use the row
// in both cases, and hand `here` on.
#[derive(Clone, Copy)]
pub struct Place {
    pub row: usize,
    pub here: bool,
}

// The place among the rows from `low` to `high`, which are in group order, by halving.
fn find_all(
    body: &[i64],
    low: usize,
    high: usize,
    w: usize,
    left: RowSlice<'_>,
    q: usize,
    rules: Rules<'_>,
) -> Place
    requires { PlaceIn (options_of rules) w low high body.now q left.values.now left.marks.now }
    ensures { Placed (options_of rules.entry) w low high body.now (row_from (suc rules.entry.terms.by) q left.entry.values.now left.entry.marks.now) result.row result.here }
{
    let mut from = low;
    let mut to = high;
    // A while: each turn halves what is left.
    while from < to {
        let mid = (from + to) / 2;
        match cmp_all(body, mid * w, left, q, rules) {
            Ordering::Less => {
                from = mid + 1;
            }
            Ordering::Equal => {
                return Place {
                    row: mid,
                    here: true,
                };
            }
            Ordering::Greater => {
                to = mid;
            }
        }
    }
    Place {
        row: from,
        here: false,
    }
}

// The same, where groups are of one by-value without a list.
fn find_single(
    body: &[i64],
    low: usize,
    high: usize,
    w: usize,
    left: RowSlice<'_>,
    q: usize,
    o: Terms,
) -> Place
    requires { SingleIn w low high body.now q left.values.now left.marks.now }
    ensures { PlacedBy (cmp_one o w body.now q left.entry.values.now left.entry.marks.now) low high result.row result.here }
{
    let mut from = low;
    let mut to = high;
    // A while: each turn halves what is left.
    while from < to {
        let half = (from + to) / 2;
        match cmp_first(body, half * w, left, q, o) {
            Ordering::Less => {
                from = half + 1;
            }
            Ordering::Equal => {
                return Place {
                    row: half,
                    here: true,
                };
            }
            Ordering::Greater => {
                to = half;
            }
        }
    }
    Place {
        row: from,
        here: false,
    }
}

// The place among the rows from `low` to `high`, which are in group order, by halving; groups of one by-value without a list have a loop of their own.
pub fn find_place(
    body: &[i64],
    low: usize,
    high: usize,
    w: usize,
    left: RowSlice<'_>,
    q: usize,
    rules: Rules<'_>,
) -> Place
    requires { PlaceIn (options_of rules) w low high body.now q left.values.now left.marks.now }
    ensures { Placed (options_of rules.entry) w low high body.now (row_from (suc rules.entry.terms.by) q left.entry.values.now left.entry.marks.now) result.row result.here }
{
    if is_single(rules.terms) {
        return find_single(body, low, high, w, left, q, rules.terms);
    }
    find_all(body, low, high, w, left, q, rules)
}

// The place among n rows, with a row that is looked at first: a sale is often of the group of the sale before it, or of the next one.
pub fn place_near(
    body: &[i64],
    n: usize,
    w: usize,
    near: usize,
    left: RowSlice<'_>,
    q: usize,
    rules: Rules<'_>,
) -> Place
    requires { PlaceIn (options_of rules) w 0 n body.now q left.values.now left.marks.now }
    ensures { Placed (options_of rules.entry) w 0 n body.now (row_from (suc rules.entry.terms.by) q left.entry.values.now left.entry.marks.now) result.row result.here }
{
    if n <= near {
        return find_place(body, 0, n, w, left, q, rules);
    }
    match cmp_sale(body, near * w, left, q, rules) {
        Ordering::Less => find_place(body, near + 1, n, w, left, q, rules),
        Ordering::Equal => Place {
            row: near,
            here: true,
        },
        Ordering::Greater => find_place(body, 0, near, w, left, q, rules),
    }
}

// The place among the rows from `start` to n, in steps that double from the first one on: near rows are found by few comparisons.
#[inline(always)]
pub fn reach(
    body: &[i64],
    start: usize,
    n: usize,
    w: usize,
    left: RowSlice<'_>,
    q: usize,
    rules: Rules<'_>,
) -> Place
    requires { PlaceIn (options_of rules) w start n body.now q left.values.now left.marks.now }
    ensures { Placed (options_of rules.entry) w start n body.now (row_from (suc rules.entry.terms.by) q left.entry.values.now left.entry.marks.now) result.row result.here }
{
    let mut low = start;
    // A while: each turn doubles its step.
    while low - start < n - low {
        let at = low + (low - start);
        match cmp_sale(body, at * w, left, q, rules) {
            Ordering::Less => {
                low = at + 1;
            }
            Ordering::Equal => {
                return Place {
                    row: at,
                    here: true,
                };
            }
            Ordering::Greater => {
                return find_place(body, low, at, w, left, q, rules);
            }
        }
    }
    find_place(body, low, n, w, left, q, rules)
}
