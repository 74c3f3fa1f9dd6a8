// The first key of a run, and whether the run is sorted by key.
ghost use Rattle.std.specs.Prelude.{◌≡◌, true, false, not, ◌+◌, ◌-◌, ◌*◌, ◌%◌, ◌<◌, ◌≤◌, length};
ghost use Rattle.frames.specs.Cells.{is_null};
ghost use Rattle.order.specs.options.Options.{without_list, key_rule};
ghost use Rattle.order.specs.Order.{cmp_cell, is_greater};
ghost use Rattle.order.specs.Requires.{cell_at, CellIn, KeysIn, RowsIn};
ghost use Rattle.matching.specs.Stretches.{between};
ghost use Rattle.matching.specs.Moves.{keys_sorted, FirstKey, key_at};
ghost use Rattle.matchrun.specs.cursor.Risen.{Risen};

use frames::RowSlice;
use order::options::Terms;
use rows::keyed::null_at;

// The first row of from..to that has a key; `to` where none has.
pub fn first_key(marks: &[i64], from: usize, to: usize, w: usize, o: Terms) -> usize
    requires { KeysIn (without_list o) w to marks.now × (from ≤ to) }
    ensures { FirstKey (without_list o) w from to marks.now result }
{
    let by = o.by;
    for i in from..to {
        let k = i * w + by;
        if !null_at(marks, k) {
            return i;
        }
    }
    to
}

// Whether the key at p, which is there, is not greater than the key at q: a null comes first.
fn rises(rows: RowSlice<'_>, p: usize, q: usize) -> bool
    requires { (p < length rows.values.now) × CellIn q rows.values.now rows.marks.now × (is_null (cell_at p rows.values.now rows.marks.now) ≡ false) }
    ensures { result ≡ not (is_greater (cmp_cell key_rule (cell_at p rows.entry.values.now rows.entry.marks.now) (cell_at q rows.entry.values.now rows.entry.marks.now))) }
{
    if null_at(rows.marks, q) {
        return false;
    }
    if rows.values[q] < rows.values[p] {
        return false;
    }
    true
}

// Whether none of the four keys from row i on, of which the first is there, is greater than the next.
fn four_rise(rows: RowSlice<'_>, i: usize, by: usize) -> bool
    requires { (by < rows.width) × ((i + 5) * rows.width ≤ length rows.values.now) × ((i + 5) * rows.width ≤ length rows.marks.now) × (is_null (cell_at (i * rows.width + by) rows.values.now rows.marks.now) ≡ false) }
    ensures { result ≡ true → Risen rows.entry.width by i rows.entry.values.now rows.entry.marks.now (i + 4) }
{
    let a = i * rows.width + by;
    let b = a + rows.width;
    if !rises(rows, a, b) {
        return false;
    }
    let c = b + rows.width;
    if !rises(rows, b, c) {
        return false;
    }
    let d = c + rows.width;
    if !rises(rows, c, d) {
        return false;
    }
    rises(rows, d, d + rows.width)
}

// A row up to `end` before which no key is greater than the next: looked for four rows at a time.
fn skip_four(rows: RowSlice<'_>, from: usize, end: usize, by: usize) -> usize
    requires { (by < rows.width) × (from ≤ end) × ((end - from) % 4 ≡ 0) × ((end + 1) * rows.width ≤ length rows.values.now) × ((end + 1) * rows.width ≤ length rows.marks.now) × (is_null (cell_at (from * rows.width + by) rows.values.now rows.marks.now) ≡ false) }
    ensures { (result ≤ end) × Risen rows.entry.width by from rows.entry.values.now rows.entry.marks.now result }
{
    let mut i = from;
    // A while: four rows a turn, and the row where it stops is returned.
    while i < end {
        if !four_rise(rows, i, by) {
            return i;
        }
        i += 4;
    }
    i
}

// A row of from..to before which no key is greater than the next. Rows that are one or two words wide are looked at four at a time, with the width a constant, unless they are few.
fn skip_risen(rows: RowSlice<'_>, from: usize, to: usize, o: Terms) -> usize
    requires { RowsIn (without_list o) rows.width to rows.values.now rows.marks.now × (from < to) × (is_null (key_at (without_list o) rows.width rows.values.now rows.marks.now from) ≡ false) }
    ensures { (result < to) × Risen rows.entry.width o.by from rows.entry.values.now rows.entry.marks.now result }
{
    let by = o.by;
    let count = to - from;
    if count < 9 {
        return from;
    }
    let end = from + (count - 1) / 4 * 4;
    if rows.width == 1 {
        return skip_four(RowSlice { width: 1, ..rows }, from, end, by);
    }
    if rows.width == 2 {
        return skip_four(RowSlice { width: 2, ..rows }, from, end, by);
    }
    from
}

// Whether no key of rows from..to, each w wide, is greater than the next, where the first of them has a key: so each has one.
fn keys_rise(rows: RowSlice<'_>, from: usize, to: usize, o: Terms) -> bool
    requires { RowsIn (without_list o) rows.width to rows.values.now rows.marks.now × (from < to) × (is_null (key_at (without_list o) rows.width rows.values.now rows.marks.now from) ≡ false) }
    ensures { result ≡ keys_sorted (without_list o) (between rows.entry.width from to rows.entry.values.now rows.entry.marks.now) }
{
    let by = o.by;
    let start = skip_risen(rows, from, to, o);
    for i in start..to - 1 {
        let p = i * rows.width + by;
        if !rises(rows, p, p + rows.width) {
            return false;
        }
    }
    true
}

// Whether no key of rows from..to, each w wide, is greater than the next.
#[inline(always)]
pub fn keys_sorted(rows: RowSlice<'_>, from: usize, to: usize, o: Terms) -> bool
    requires { RowsIn (without_list o) rows.width to rows.values.now rows.marks.now × (from ≤ to) }
    ensures { result ≡ keys_sorted (without_list o) (between rows.entry.width from to rows.entry.values.now rows.entry.marks.now) }
{
    let start = first_key(rows.marks, from, to, rows.width, o);
    if start == to {
        return true;
    }
    keys_rise(rows, start, to, o)
}
