// Keys that do not fall: of two rows, and of all rows where there are no by-columns.
ghost use Rattle.std.specs.Prelude.{◌≡◌, true, false, ℕ, ◌+◌, ◌*◌, ◌≤◌, ◌<◌};
ghost use Rattle.frames.specs.Cells.{rows_in};
ghost use Rattle.order.specs.options.Options.{key_rule};
ghost use Rattle.order.specs.declared.options.Options.{Options};
ghost use Rattle.order.specs.Order.{cmp_cell, is_greater, sorted};
ghost use Rattle.order.specs.Requires.{cell_at, CellIn};
ghost use Rattle.groups.specs.stretch.Stretch.{RowsTo};
ghost use Rattle.groups.specs.rising.Rising.{key_falls, Rises};

use frames::RowSlice;
use rows::keyed::null_at;

// Whether the key at p is greater than the one at q: keys ascend, nulls first.
pub fn key_falls(rows: RowSlice<'_>, p: usize, q: usize) -> bool
    requires { CellIn p rows.values.now rows.marks.now × CellIn q rows.values.now rows.marks.now }
    ensures { result ≡ is_greater (cmp_cell key_rule (cell_at p rows.entry.values.now rows.entry.marks.now) (cell_at q rows.entry.values.now rows.entry.marks.now)) }
{
    if null_at(rows.marks, p) {
        return false;
    }
    if null_at(rows.marks, q) {
        return true;
    }
    if rows.values[q] < rows.values[p] {
        return true;
    }
    false
}

// Whether there is a key at `next`, and its value is not below the one at `at`: then the key at `at`, or the null, is not greater.
fn key_rises(rows: RowSlice<'_>, at: usize, next: usize) -> bool
    requires { CellIn at rows.values.now rows.marks.now × CellIn next rows.values.now rows.marks.now }
    ensures { result ≡ true → key_falls at next rows.entry.values.now rows.entry.marks.now ≡ false }
{
    if null_at(rows.marks, next) {
        return false;
    }
    if rows.values[next] < rows.values[at] {
        return false;
    }
    true
}

// Whether four keys, each w words behind the one before it, follow the one at p.
fn four_rise(rows: RowSlice<'_>, p: usize) -> bool
    requires { CellIn (p + rows.width + rows.width + rows.width + rows.width) rows.values.now rows.marks.now }
    ensures { result ≡ true → (j : ℕ) → j < 4 → key_falls (p + j * rows.entry.width) (p + j * rows.entry.width + rows.entry.width) rows.entry.values.now rows.entry.marks.now ≡ false }
{
    let a = p + rows.width;
    if !key_rises(rows, p, a) {
        return false;
    }
    let b = a + rows.width;
    if !key_rises(rows, a, b) {
        return false;
    }
    let c = b + rows.width;
    if !key_rises(rows, b, c) {
        return false;
    }
    key_rises(rows, c, c + rows.width)
}

// From the first row on, without by-columns: how far no key falls, told four rows at a time. It may stop before that.
fn fours_rise(rows: RowSlice<'_>) -> usize
    requires { RowsTo 1 rows.width rows.count rows.values.now rows.marks.now 0 × (0 < rows.count) }
    ensures { (0 < result) × (result ≤ rows.entry.count) × Rises 0 rows.entry.width rows.entry.values.now rows.entry.marks.now 0 result }
{
    let mut left = rows.count - 1;
    let mut p = 0;
    // A while: four rows a turn.
    while 3 < left {
        if !four_rise(rows, p) {
            return rows.count - left;
        }
        p += 4 * rows.width;
        left -= 4;
    }
    rows.count - left
}

// Whether no row of n is greater than the next, without by-columns: keys alone decide.
pub fn keys_sorted(rows: RowSlice<'_>) -> bool
    requires { RowsTo 1 rows.width rows.count rows.values.now rows.marks.now 0 }
    ensures { (o : Options) → o.by ≡ 0 → result ≡ sorted o (rows_in rows.entry) }
{
    if rows.count == 0 {
        return true;
    }
    let e = fours_rise(rows);
    for i in e..rows.count {
        let q = i * rows.width;
        if key_falls(rows, q - rows.width, q) {
            return false;
        }
    }
    true
}
