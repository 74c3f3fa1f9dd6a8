// Runs of sorted rows: where they end, found by halving.
ghost use Rattle.std.specs.Prelude.{◌≡◌, true, List, ℕ, ◌+◌, ◌*◌, ◌≤◌, ◌<◌};
ghost use Rattle.frames.specs.Cells.{row_from, Words};
ghost use Rattle.order.specs.options.Options.{with_list, without_list, options_of};
ghost use Rattle.order.specs.Order.{cmp_group};
ghost use Rattle.order.specs.Requires.{RowsIn, TableIn};
ghost use Rattle.std.specs.declared.cmp.Ordering.TheVariants.{Equal};
ghost use Rattle.matching.specs.Stretches.{between, run_length};

use crate::neighbours::same_values;
use crate::run_end;
use frames::RowSlice;
use order::options::{Rules, Terms};

// A row behind row i of n, or n: no row from there on is asked for. The distance is doubled as long as the row there has the by-values of row i.
fn reach(rows: RowSlice<'_>, i: usize, o: Terms) -> usize
    requires { RowsIn (without_list o) rows.width rows.count rows.values.now rows.marks.now × (i < rows.count) }
    ensures { (i < result) × (result ≤ rows.entry.count) }
{
    let mut step = 16;
    // A while: each turn doubles its step.
    while step < rows.count - i {
        if !same_values(rows, i * rows.width, (i + step) * rows.width, o) {
            return i + step;
        }
        step += step;
    }
    rows.count
}

// A row of i..high that has the by-values of row i, found by halving: the last one where the rows are sorted.
fn last_alike(rows: RowSlice<'_>, high: usize, i: usize, o: Terms) -> usize
    requires { RowsIn (without_list o) rows.width high rows.values.now rows.marks.now × (i < high) }
    ensures { (i ≤ result) × (result < high) × ((codes : Words) (rising : List ℕ) → cmp_group (with_list o codes rising) (row_from rows.entry.width (i * rows.entry.width) rows.entry.values.now rows.entry.marks.now) (row_from rows.entry.width (result * rows.entry.width) rows.entry.values.now rows.entry.marks.now) ≡ Equal) }
{
    let mut low = i;
    let mut end = high;
    // A while: each turn halves what is left.
    while low + 1 < end {
        let middle = low + (end - low) / 2;
        if same_values(rows, i * rows.width, middle * rows.width, o) {
            low = middle;
        } else {
            end = middle;
        }
    }
    low
}

// A row of n from row i on that has its by-values: row i itself where the run is not long, so that short runs are not searched.
#[inline(always)]
fn skip_alike(rows: RowSlice<'_>, i: usize, o: Terms) -> usize
    requires { RowsIn (without_list o) rows.width rows.count rows.values.now rows.marks.now × (i ≤ rows.count) }
    ensures { (i ≤ result) × (result ≤ rows.entry.count) × (i < result → (result < rows.entry.count) × ((codes : Words) (rising : List ℕ) → cmp_group (with_list o codes rising) (row_from rows.entry.width (i * rows.entry.width) rows.entry.values.now rows.entry.marks.now) (row_from rows.entry.width (result * rows.entry.width) rows.entry.values.now rows.entry.marks.now) ≡ Equal)) }
{
    if rows.count - i <= 16 {
        return i;
    }
    if !same_values(rows, i * rows.width, (i + 16) * rows.width, o) {
        return i;
    }
    let high = reach(rows, i, o);
    last_alike(rows, high, i, o)
}

// The end of the run that starts at row i of n sorted rows, each w wide; i itself behind the last of them. Between two rows of one group all rows
// have it, so the rows of a long run are not passed one by one.
#[inline(always)]
pub fn sorted_end(rows: RowSlice<'_>, i: usize, rules: Rules<'_>) -> usize
    requires { TableIn (options_of rules) rows.width rows.count rows.values.now rows.marks.now × (i ≤ rows.count) }
    ensures { result ≡ i + run_length (options_of rules.entry) (between rows.entry.width i rows.entry.count rows.entry.values.now rows.entry.marks.now) }
{
    let last = skip_alike(rows, i, rules.terms);
    run_end(rows, last, rules)
}
