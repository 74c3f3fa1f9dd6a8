// Neighbouring rows: whether two have the same by-values, whether one is greater than the next, whether rows are sorted.
ghost use Rattle.std.specs.Prelude.{◌≡◌, true, List, ℕ, ◌<◌};
ghost use Rattle.frames.specs.Cells.{row_from, Words, rows_in};
ghost use Rattle.order.specs.options.Options.{with_list, without_list, options_of};
ghost use Rattle.order.specs.Order.{cmp_group, cmp_row, is_greater, sorted};
ghost use Rattle.order.specs.Requires.{RowAt, RowsIn};
ghost use Rattle.std.specs.declared.cmp.Ordering.TheVariants.{Less, Equal};

use crate::rising::{key_falls, keys_sorted};
use crate::stretch::same_words;
use crate::stretchkeys::rise_end;
use frames::RowSlice;
use order::options::{Rules, Terms, is_ranked};
use rows::cells::cmp_cell;
use rows::compare::cmp_row;
use std::cmp::Ordering;

// Whether the by-values of the rows at p and q have the same words: then they are of one run, by whatever list. Most rows are told so.
pub fn same_values(rows: RowSlice<'_>, p: usize, q: usize, o: Terms) -> bool
    requires { RowAt (without_list o) p rows.values.now rows.marks.now × RowAt (without_list o) q rows.values.now rows.marks.now }
    ensures { result ≡ true → (codes : Words) (rising : List ℕ) (w : ℕ) → o.by < w → cmp_group (with_list o codes rising) (row_from w p rows.entry.values.now rows.entry.marks.now) (row_from w q rows.entry.values.now rows.entry.marks.now) ≡ Equal }
{
    same_words(rows, p, q, o.by)
}

// Whether the first by-column, which has no list, tells that the row at p is less than the one at q. Where groups are short most rows are told so.
fn steps_up(rows: RowSlice<'_>, p: usize, q: usize, o: Terms) -> bool
    requires { RowAt (without_list o) p rows.values.now rows.marks.now × RowAt (without_list o) q rows.values.now rows.marks.now × (0 < o.by) }
    ensures { result ≡ true → (codes : Words) (rising : List ℕ) (w : ℕ) → o.by < w → cmp_row (with_list o codes rising) (row_from w p rows.entry.values.now rows.entry.marks.now) (row_from w q rows.entry.values.now rows.entry.marks.now) ≡ Less }
{
    if is_ranked(o, 0) {
        return false;
    }
    let descending = o.descending;
    let last = o.nulls_last;
    match cmp_cell(
        rows.values[p],
        rows.marks[p],
        rows.values[q],
        rows.marks[q],
        descending[0],
        last[0],
    ) {
        Ordering::Less => true,
        _ => false,
    }
}

// Whether the row at p is greater than the one at q.
fn row_falls(rows: RowSlice<'_>, p: usize, q: usize, rules: Rules<'_>) -> bool
    requires { RowAt (options_of rules) p rows.values.now rows.marks.now × RowAt (options_of rules) q rows.values.now rows.marks.now × (0 < rules.terms.by) }
    ensures { (w : ℕ) → rules.entry.terms.by < w → result ≡ is_greater (cmp_row (options_of rules.entry) (row_from w p rows.entry.values.now rows.entry.marks.now) (row_from w q rows.entry.values.now rows.entry.marks.now)) }
{
    if steps_up(rows, p, q, rules.terms) {
        return false;
    }
    match cmp_row(rows, p, rows, q, rules) {
        Ordering::Greater => true,
        _ => false,
    }
}

// Whether no row of n, each w wide, is greater than the next. Where two rows have the same by-values their keys decide, and the rows behind
// them that go on so are passed together; the others are compared by the rules.
pub fn is_sorted(rows: RowSlice<'_>, rules: Rules<'_>) -> bool
    requires { RowsIn (options_of rules) rows.width rows.count rows.values.now rows.marks.now }
    ensures { result ≡ sorted (options_of rules.entry) (rows_in rows.entry) }
{
    let by = rules.terms.by;
    if by == 0 {
        return keys_sorted(rows);
    }
    let mut p = 0;
    let mut e = 1;
    // A while: the next row is where rows with the same words end.
    while e < rows.count {
        let q = p + rows.width;
        if same_values(rows, p, q, rules.terms) {
            if key_falls(rows, p + by, q + by) {
                return false;
            }
            e = rise_end(rows, e, by);
            p = (e - 1) * rows.width;
        } else {
            if row_falls(rows, p, q, rules) {
                return false;
            }
            p = q;
            e += 1;
        }
    }
    true
}
