// Rows with the by-values of the row before, word for word: how far their keys do not fall.
ghost use Rattle.std.specs.Prelude.{◌≡◌, true, false, ◌+◌, ◌-◌, ◌≤◌, ◌<◌, pos, get_or};
ghost use Rattle.frames.specs.Cells.{cell_of};
ghost use Rattle.order.specs.Requires.{cell_at, CellIn};
ghost use Rattle.groups.specs.stretch.Stretch.{RowsTo, SameTo};
ghost use Rattle.groups.specs.rising.Rising.{key_falls, Rises};

use crate::rising::key_falls;
use crate::stretch::{has_words, same_words};
use frames::RowSlice;

// Whether the mark at `next` is m, as at `at`, and the value there is not below the one at `at`: then the key at `at` is not greater. Both may be null.
fn key_follows(rows: RowSlice<'_>, at: usize, next: usize, m: i64) -> bool
    requires { CellIn at rows.values.now rows.marks.now × CellIn next rows.values.now rows.marks.now × (get_or rows.marks.now at (pos 0) ≡ m) }
    ensures { result ≡ true → (key_falls at next rows.entry.values.now rows.entry.marks.now ≡ false) × (get_or rows.entry.marks.now next (pos 0) ≡ m) }
{
    if rows.marks[next] != m {
        return false;
    }
    if rows.values[next] < rows.values[at] {
        return false;
    }
    true
}

// With one by-column: whether the row at q goes on from the one at p. Its by-value has the words v and m, its key the mark k, as at p, and does not fall.
fn row_follows(rows: RowSlice<'_>, p: usize, q: usize, v: i64, m: i64, k: i64) -> bool
    requires { CellIn (p + 1) rows.values.now rows.marks.now × CellIn (q + 1) rows.values.now rows.marks.now × (get_or rows.marks.now (p + 1) (pos 0) ≡ k) }
    ensures { result ≡ true → (cell_at q rows.entry.values.now rows.entry.marks.now ≡ cell_of v m) × (key_falls (p + 1) (q + 1) rows.entry.values.now rows.entry.marks.now ≡ false) × (get_or rows.entry.marks.now (q + 1) (pos 0) ≡ k) }
{
    if !has_words(rows, q, v, m) {
        return false;
    }
    key_follows(rows, p + 1, q + 1, k)
}

// With one by-column: how many rows are left behind those that go on so. The words of row i's by-value and the mark of its key are kept, and
// each row behind it is compared with them, two rows in a turn of the loop. A last row that has no second is left.
fn one_rise(rows: RowSlice<'_>, i: usize) -> usize
    requires { RowsTo 2 rows.width rows.count rows.values.now rows.marks.now i × (i < rows.count) }
    ensures { (result ≤ rows.entry.count) × SameTo 1 rows.entry.width rows.entry.count rows.entry.values.now rows.entry.marks.now i (rows.entry.count - result) × Rises 1 rows.entry.width rows.entry.values.now rows.entry.marks.now i (rows.entry.count - result) }
{
    let mut left = rows.count - i - 1;
    let mut p = i * rows.width;
    let v = rows.values[p];
    let m = rows.marks[p];
    let k = rows.marks[p + 1];
    // A while: two rows a turn.
    while 1 < left {
        let q = p + rows.width;
        if !row_follows(rows, p, q, v, m, k) {
            return left;
        }
        let r = q + rows.width;
        if !row_follows(rows, q, r, v, m, k) {
            return left - 1;
        }
        p = r;
        left -= 2;
    }
    left
}

// The same with any number of by-columns.
fn many_rise(rows: RowSlice<'_>, i: usize, by: usize) -> usize
    requires { RowsTo (by + 1) rows.width rows.count rows.values.now rows.marks.now i × (i < rows.count) }
    ensures { (result ≤ rows.entry.count) × SameTo by rows.entry.width rows.entry.count rows.entry.values.now rows.entry.marks.now i (rows.entry.count - result) × Rises by rows.entry.width rows.entry.values.now rows.entry.marks.now i (rows.entry.count - result) }
{
    for e in i + 1..rows.count {
        let q = e * rows.width;
        let p = q - rows.width;
        if !same_words(rows, p, q, by) || key_falls(rows, p + by, q + by) {
            return rows.count - e;
        }
    }
    0
}

// How far the rows behind row i, of n, have its by-values, word for word, and no key falls. It may stop before that: what stands there is then compared by the rules.
pub fn rise_end(rows: RowSlice<'_>, i: usize, by: usize) -> usize
    requires { RowsTo (by + 1) rows.width rows.count rows.values.now rows.marks.now i × (i < rows.count) }
    ensures { SameTo by rows.entry.width rows.entry.count rows.entry.values.now rows.entry.marks.now i result × Rises by rows.entry.width rows.entry.values.now rows.entry.marks.now i result }
{
    if by == 1 {
        return rows.count - one_rise(rows, i);
    }
    rows.count - many_rise(rows, i, by)
}
