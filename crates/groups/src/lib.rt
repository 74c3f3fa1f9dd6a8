// Groups of rows: runs of equal groups and where they end, the right cursor of a frame, and whether rows are sorted.
#![tactic(auto)]

pub mod neighbours;
pub mod rising;
pub mod sortedruns;
pub mod stretch;
pub mod stretchkeys;

ghost use Rattle.std.specs.Prelude.{◌≡◌, true, false, List, ℕ, ◌+◌, ◌<◌};
ghost use Rattle.frames.specs.Cells.{row_from, Words};
ghost use Rattle.order.specs.options.Options.{with_list, without_list, options_of};
ghost use Rattle.order.specs.Order.{cmp_group};
ghost use Rattle.order.specs.Requires.{cell_at, CellIn, RowAt, TableIn};
ghost use Rattle.matching.specs.Groups.{same_run};
ghost use Rattle.matching.specs.Stretches.{between, run_length, standing};
ghost use Rattle.groups.specs.stretch.Stretch.{CellsIn};
ghost use Rattle.groups.specs.Alike.{SameCells};
ghost use Rattle.matching.specs.Moves.{keys_sorted};
ghost use Rattle.matching.specs.Loops.{Within, PassRoom, Stands, Passed, Serves};

use crate::neighbours::same_values;
use crate::sortedruns::sorted_end;
use crate::stretch::same_end;
use frames::RowSlice;
use matching::RunCursor;
use order::options::{Rules, Terms};
use rows::cells::cmp_cell;
use rows::compare::cmp_group;
use rows::keyed::null_group;
use std::cmp::Ordering;

// Whether the cells at a and b are equal: both null, or the same value.
fn same_cell(rows: RowSlice<'_>, a: usize, b: usize) -> bool
    requires { CellIn a rows.values.now rows.marks.now × CellIn b rows.values.now rows.marks.now }
    ensures { (result ≡ true → cell_at a rows.entry.values.now rows.entry.marks.now ≡ cell_at b rows.entry.values.now rows.entry.marks.now) × (result ≡ false → cell_at a rows.entry.values.now rows.entry.marks.now ≡ cell_at b rows.entry.values.now rows.entry.marks.now → ⊥) }
{
    match cmp_cell(
        rows.values[a],
        rows.marks[a],
        rows.values[b],
        rows.marks[b],
        false,
        false,
    ) {
        Ordering::Equal => true,
        _ => false,
    }
}

// Whether the first `by` cells of the rows at p and q are equal. Whether two groups are one is told by this, whatever the columns' order and list.
fn same_cells(rows: RowSlice<'_>, p: usize, q: usize, by: usize) -> bool
    requires { CellsIn by p rows.values.now rows.marks.now × CellsIn by q rows.values.now rows.marks.now }
    ensures { (result ≡ true → SameCells by p q rows.entry.values.now rows.entry.marks.now) × (result ≡ false → SameCells by p q rows.entry.values.now rows.entry.marks.now → ⊥) }
{
    for j in 0..by {
        if !same_cell(rows, p + j, q + j) {
            return false;
        }
    }
    true
}

// Whether the rows at p and q, which stand one behind the other, are of one run.
fn same_run(rows: RowSlice<'_>, p: usize, q: usize, o: Terms) -> bool
    requires { RowAt (without_list o) p rows.values.now rows.marks.now × RowAt (without_list o) q rows.values.now rows.marks.now }
    ensures { (codes : Words) (rising : List ℕ) (w : ℕ) → o.by < w → result ≡ same_run (with_list o codes rising) (row_from w p rows.entry.values.now rows.entry.marks.now) (row_from w q rows.entry.values.now rows.entry.marks.now) }
{
    if same_cells(rows, p, q, o.by) {
        return true;
    }
    if !null_group(rows.marks, p, o) {
        return false;
    }
    null_group(rows.marks, q, o)
}

// The end of the run that starts at row i, of n rows that are each w wide; i itself behind the last of them. Most rows have the by-values of
// the row before, word for word: these are passed together, and not compared by the rules.
#[inline(always)]
pub fn run_end(rows: RowSlice<'_>, i: usize, rules: Rules<'_>) -> usize
    requires { Within (options_of rules) rows.width rows.count rows.values.now rows.marks.now i }
    ensures { result ≡ i + run_length (options_of rules.entry) (between rows.entry.width i rows.entry.count rows.entry.values.now rows.entry.marks.now) }
{
    if i == rows.count {
        return i;
    }
    let by = rules.terms.by;
    let mut p = i * rows.width;
    let mut e = i + 1;
    // A while: the next row is where rows with the same words end.
    while e < rows.count {
        let q = p + rows.width;
        if same_values(rows, p, q, rules.terms) {
            e = same_end(rows, e, by);
            p = (e - 1) * rows.width;
        } else {
            if !same_run(rows, p, q, rules.terms) {
                return e;
            }
            p = q;
            e += 1;
        }
    }
    e
}

// How the right row at q stands to the left row at p: Less where the cursor passes its run, Equal where it is used.
pub fn stands_to(
    right: RowSlice<'_>,
    q: usize,
    left: RowSlice<'_>,
    p: usize,
    rules: Rules<'_>,
) -> Ordering
    requires { RowAt (options_of rules) q right.values.now right.marks.now × RowAt (options_of rules) p left.values.now left.marks.now }
    ensures { (wl wr : ℕ) → rules.entry.terms.by < wl → rules.entry.terms.by < wr → result ≡ standing (options_of rules.entry) (row_from wl p left.entry.values.now left.entry.marks.now) (row_from wr q right.entry.values.now right.entry.marks.now) }
{
    if null_group(right.marks, q, rules.terms) {
        return Ordering::Less;
    }
    cmp_group(right, q, left, p, rules)
}

// The end of the run that starts at row i; of rows that are in order it is not sought row by row.
// A flag, constant in each caller: a closure would need the same flag to say what it promises.
#[inline(always)]
fn end_of_run(rows: RowSlice<'_>, i: usize, in_order: bool, rules: Rules<'_>) -> usize
    requires { Within (options_of rules) rows.width rows.count rows.values.now rows.marks.now i × (in_order ≡ true → TableIn (options_of rules) rows.width rows.count rows.values.now rows.marks.now) }
    ensures { result ≡ i + run_length (options_of rules.entry) (between rows.entry.width i rows.entry.count rows.entry.values.now rows.entry.marks.now) }
{
    if in_order {
        return sorted_end(rows, i, rules);
    }
    run_end(rows, i, rules)
}

// From the right run from..to on, the cursor passes null runs and runs before the group of the left row at p.
// A flag, constant in each caller: a closure would need the same flag to say what it promises.
#[inline(always)]
fn pass_runs(
    right: RowSlice<'_>,
    from: usize,
    to: usize,
    left: RowSlice<'_>,
    p: usize,
    in_order: bool,
    rules: Rules<'_>,
) -> RunCursor
    requires { PassRoom (options_of rules) p left.values.now left.marks.now right.width right.count right.values.now right.marks.now from to × (in_order ≡ true → TableIn (options_of rules) right.width right.count right.values.now right.marks.now) }
    ensures { Stands (options_of rules.entry) right.entry.width right.entry.count right.entry.values.now right.entry.marks.now result × ((wl : ℕ) → rules.entry.terms.by < wl → Passed (options_of rules.entry) right.entry.width right.entry.count right.entry.values.now right.entry.marks.now from (row_from wl p left.entry.values.now left.entry.marks.now) result) × (in_order ≡ true → keys_sorted (without_list rules.entry.terms) (between right.entry.width result.at result.used right.entry.values.now right.entry.marks.now) ≡ true) }
{
    let mut at = from;
    let mut end = to;
    // A while: the next row is where the run ends.
    while at < right.count {
        match stands_to(right, at * right.width, left, p, rules) {
            Ordering::Less => {}
            Ordering::Equal => return RunCursor {
                at: at,
                end: end,
                used: end,
            },
            Ordering::Greater => return RunCursor {
                at: at,
                end: end,
                used: at,
            },
        }
        at = end;
        end = end_of_run(right, at, in_order, rules);
    }
    RunCursor {
        at: at,
        end: end,
        used: at,
    }
}

// The right cursor for the left run whose first row is at p: a null group leaves it where it is and uses an empty run. Where the right rows are
// in order, those that the run uses are sorted by key.
// A flag, constant in each caller: a closure would need the same flag to say what it promises.
#[inline(always)]
pub fn serve(
    right: RowSlice<'_>,
    from: usize,
    to: usize,
    left: RowSlice<'_>,
    p: usize,
    in_order: bool,
    rules: Rules<'_>,
) -> RunCursor
    requires { PassRoom (options_of rules) p left.values.now left.marks.now right.width right.count right.values.now right.marks.now from to × (in_order ≡ true → TableIn (options_of rules) right.width right.count right.values.now right.marks.now) }
    ensures { Stands (options_of rules.entry) right.entry.width right.entry.count right.entry.values.now right.entry.marks.now result × ((wl : ℕ) → rules.entry.terms.by < wl → Serves (options_of rules.entry) right.entry.width right.entry.count right.entry.values.now right.entry.marks.now from (row_from wl p left.entry.values.now left.entry.marks.now) result) × (in_order ≡ true → keys_sorted (without_list rules.entry.terms) (between right.entry.width result.at result.used right.entry.values.now right.entry.marks.now) ≡ true) }
{
    if null_group(left.marks, p, rules.terms) {
        return RunCursor {
            at: from,
            end: to,
            used: from,
        };
    }
    pass_runs(right, from, to, left, p, in_order, rules)
}
