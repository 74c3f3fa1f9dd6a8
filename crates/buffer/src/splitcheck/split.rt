// The check at the split: the row before it, the first row with a key after it, and what is remembered.
ghost use Rattle.std.specs.Prelude.{◌≡◌, ℕ, ◌<◌};
ghost use Rattle.frames.specs.Cells.{row_from, rows_of, rows_in};
ghost use Rattle.order.specs.options.Options.{without_list, columns, options_of};
ghost use Rattle.order.specs.Order.{is_greater};
ghost use Rattle.order.specs.Keyed.{first_keyed, row_at, recall, remember_at, out_of_order};
ghost use Rattle.order.specs.Requires.{RowAt, RowsIn};
ghost use Rattle.buffer.specs.splitcheck.Split.{words_before, has_before, out_of_order_at};
ghost use Rattle.buffer.specs.splitcheck.Requires.{BeforeIn, SplitIn, FoundIn, FoundAmong};

use frames::RowSlice;
use order::Row;
use order::options::{Rules, Terms, left_columns};
use rows::compare::cmp_row;
use rows::keyed::{copy_row, first_keyed, last_keyed};
use std::cmp::Ordering;

// The row that the first kept one is compared with (SCOPE 11.4), its values or its marks.
pub(crate) fn before_split<'a>(
    held: &'a [i64],
    remembered: &'a [i64],
    found: Option<usize>,
    c: usize,
    w: usize,
) -> &'a [i64]
    requires { BeforeIn c w found held.now remembered.now }
    ensures { result.now ≡ words_before c w held.now remembered.now found }
{
    let Some(i) = found else {
        return &remembered[..c];
    };
    let p = i * w;
    let e = p + w;
    &held[p..e]
}

// Whether there is a row before the split.
fn has_before(found: Option<usize>, remembered: bool) -> bool
    ensures { result ≡ has_before found remembered }
{
    found.is_some() || remembered
}

// Whether the first of two rows is the greater one, by their order.
fn is_greater(order: Ordering) -> bool
    ensures { result ≡ is_greater order }
{
    order.is_gt()
}

// Whether the row before, the first of its rows, is greater than the row found.
fn above_found(
    before: RowSlice<'_>,
    found: Option<usize>,
    rows: RowSlice<'_>,
    rules: Rules<'_>,
) -> bool
    requires { RowAt (options_of rules) 0 before.values.now before.marks.now × FoundIn (options_of rules) rows.width found rows.values.now rows.marks.now }
    ensures { (wp n : ℕ) → rules.entry.terms.by < wp → FoundAmong found n → result ≡ out_of_order (options_of rules.entry) (Some (row_from wp 0 before.entry.values.now before.entry.marks.now)) (row_at (rows_of rows.entry.width n rows.entry.values.now rows.entry.marks.now) found) }
{
    let Some(i) = found else {
        return false;
    };
    is_greater(cmp_row(before, 0, rows, i * rows.width, rules))
}

// Whether the row before, the first of its rows, is greater than the first row with a key.
fn above_first(before: RowSlice<'_>, rows: RowSlice<'_>, rules: Rules<'_>) -> bool
    requires { RowAt (options_of rules) 0 before.values.now before.marks.now × RowsIn (options_of rules) rows.width rows.count rows.values.now rows.marks.now }
    ensures { (wp : ℕ) → rules.entry.terms.by < wp → result ≡ out_of_order (options_of rules.entry) (Some (row_from wp 0 before.entry.values.now before.entry.marks.now)) (row_at (rows_in rows.entry) (first_keyed (options_of rules.entry) (rows_in rows.entry))) }
{
    let first = first_keyed(rows.marks, rows.count, rows.width, rules.terms);
    above_found(before, first, rows, rules)
}

// Whether the remembered row is greater than the row found.
pub fn out_of_order(m: Row, found: Option<usize>, rows: RowSlice<'_>, rules: Rules<'_>) -> bool
    requires { FoundIn (options_of rules) rows.width found rows.values.now rows.marks.now }
    ensures { (n : ℕ) → FoundAmong found n → result ≡ out_of_order (options_of rules.entry) (recall (columns (options_of rules.entry)) m) (row_at (rows_of rows.entry.width n rows.entry.values.now rows.entry.marks.now) found) }
{
    if !m.some {
        return false;
    }
    let lv = m.values;
    let lm = m.marks;
    let before = RowSlice {
        values: &lv,
        marks: &lm,
        count: 1,
        width: lv.len(),
    };
    above_found(before, found, rows, rules)
}

// Whether the row before the split s of n held rows is greater than the first row with a key after it.
pub fn bad_split(m: Row, s: usize, right: RowSlice<'_>, rules: Rules<'_>) -> bool
    requires { SplitIn (options_of rules) s right.width right.count right.values.now right.marks.now }
    ensures { result ≡ out_of_order_at (options_of rules.entry) m s (rows_in right.entry) }
{
    let found = last_keyed(right.marks, s, right.width, rules.terms);
    if !has_before(found, m.some) {
        return false;
    }
    let lv = m.values;
    let lm = m.marks;
    let c = left_columns(rules.terms);
    let values = before_split(right.values, &lv, found, c, right.width);
    let marks = before_split(right.marks, &lm, found, c, right.width);
    let before = RowSlice {
        values,
        marks,
        count: 1,
        width: values.len(),
    };
    let p = s * right.width;
    let after = RowSlice {
        values: &right.values[p..],
        marks: &right.marks[p..],
        count: right.count - s,
        ..right
    };
    above_first(before, after, rules)
}

// What is remembered by the row found, of rows that are each w wide: that row, or the row m if none was found.
pub fn remember_found(m: Row, found: Option<usize>, rows: RowSlice<'_>, o: Terms) -> Row
    requires { FoundIn (without_list o) rows.width found rows.values.now rows.marks.now }
    ensures { (n : ℕ) → FoundAmong found n → result ≡ remember_at (without_list o) m (rows_of rows.entry.width n rows.entry.values.now rows.entry.marks.now) found }
{
    let Some(i) = found else {
        return m;
    };
    let c = left_columns(o);
    copy_row(RowSlice { width: c, ..rows }, i * rows.width)
}
