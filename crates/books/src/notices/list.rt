// All notices, from the last row back: on a sorted table the next row decides.
ghost use Rattle.std.specs.Prelude.{◌≡◌, ℕ, ◌+◌, ◌*◌, ◌<◌};
ghost use Rattle.frames.specs.Cells.{row_from, rows_in};
ghost use Rattle.order.specs.options.Options.{key_rule, options_of};
ghost use Rattle.order.specs.Order.{cmp_cell, cmp_row, is_equal};
ghost use Rattle.order.specs.Requires.{cell_at, CellIn, RowAt, RowsIn};
ghost use Rattle.tables.specs.Requires.{rest};
ghost use Rattle.tables.specs.Lay.{flat, lay_cells};
ghost use Rattle.books.specs.Standing.{notices};
ghost use Rattle.books.specs.notices.Requires.{last_by, ListRoom};

use crate::notices::row::put_notice;
use frames::RowSlice;
use groups::neighbours::same_values;
use order::options::Rules;
use rows::compare::cmp_row;
use rows::keyed::null_at;

// Whether the keys at p and q are equal: both null, or the same number.
fn same_key(rows: RowSlice<'_>, p: usize, q: usize) -> bool
    requires { CellIn p rows.values.now rows.marks.now × CellIn q rows.values.now rows.marks.now }
    ensures { result ≡ is_equal (cmp_cell key_rule (cell_at p rows.entry.values.now rows.entry.marks.now) (cell_at q rows.entry.values.now rows.entry.marks.now)) }
{
    if null_at(rows.marks, p) {
        return null_at(rows.marks, q);
    }
    if null_at(rows.marks, q) {
        return false;
    }
    rows.values[p] == rows.values[q]
}

// Whether the rows at p and q have the same group and key. If both have the same by-values their keys decide, and most neighbours have.
fn same_row(rows: RowSlice<'_>, p: usize, q: usize, rules: Rules<'_>) -> bool
    requires { RowAt (options_of rules) p rows.values.now rows.marks.now × RowAt (options_of rules) q rows.values.now rows.marks.now }
    ensures { (w : ℕ) → rules.entry.terms.by < w → result ≡ is_equal (cmp_row (options_of rules.entry) (row_from w p rows.entry.values.now rows.entry.marks.now) (row_from w q rows.entry.values.now rows.entry.marks.now)) }
{
    if same_values(rows, p, q, rules.terms) {
        return same_key(rows, p + rules.terms.by, q + rules.terms.by);
    }
    cmp_row(rows, p, rows, q, rules).is_eq()
}

// The last row of row i's group and key, if `last` is that of the next row's.
fn last_row(rows: RowSlice<'_>, i: usize, last: usize, rules: Rules<'_>) -> usize
    requires { RowsIn (options_of rules) rows.width rows.count rows.values.now rows.marks.now × (i < rows.count) }
    ensures { result ≡ last_by (options_of rules.entry) (row_from rows.entry.width (i * rows.entry.width) rows.entry.values.now rows.entry.marks.now) i last (rest rows.entry.width (i + 1) rows.entry.count rows.entry.values.now rows.entry.marks.now) }
{
    let j = i + 1;
    if j == rows.count {
        return i;
    }
    if same_row(rows, j * rows.width, i * rows.width, rules) {
        return last;
    }
    i
}

// The notices of n sorted rows, as m cells.
pub fn put_notices(rows: RowSlice<'_>, column: usize, rules: Rules<'_>, m: usize, out: &mut [i64])
    requires { ListRoom (options_of rules) rows.width rows.count column m rows.values.now rows.marks.now out.old }
    ensures { out.new ≡ lay_cells m 0 (flat (notices (options_of rules.entry) column 0 (rows_in rows.entry))) out.old }
{
    let mut last = rows.count;
    for i in (0..rows.count).rev() {
        last = last_row(rows, i, last, rules);
        put_notice(rows, i, column, last, rules.terms, m, out);
    }
}
