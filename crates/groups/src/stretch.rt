// Rows that have the by-values of the row before, word for word: whether two rows do, and how far such rows reach.
ghost use Rattle.std.specs.Prelude.{◌≡◌, true, ℕ, ◌+◌, ◌*◌, ◌<◌};
ghost use Rattle.frames.specs.Cells.{cell_of};
ghost use Rattle.order.specs.Requires.{cell_at, CellIn};
ghost use Rattle.groups.specs.stretch.Stretch.{CellsIn, RowsTo, Have, SameTo};

use frames::RowSlice;

// Whether the cells at a and b have the same words: then they are the same cell.
fn same_value(rows: RowSlice<'_>, a: usize, b: usize) -> bool
    requires { CellIn a rows.values.now rows.marks.now × CellIn b rows.values.now rows.marks.now }
    ensures { result ≡ true → cell_at a rows.entry.values.now rows.entry.marks.now ≡ cell_at b rows.entry.values.now rows.entry.marks.now }
{
    if rows.values[a] != rows.values[b] {
        return false;
    }
    if rows.marks[a] != rows.marks[b] {
        return false;
    }
    true
}

// Whether the first `by` cells of the rows at p and q have the same words.
pub fn same_words(rows: RowSlice<'_>, p: usize, q: usize, by: usize) -> bool
    requires { CellsIn by p rows.values.now rows.marks.now × CellsIn by q rows.values.now rows.marks.now }
    ensures { result ≡ true → (j : ℕ) → j < by → cell_at (p + j) rows.entry.values.now rows.entry.marks.now ≡ cell_at (q + j) rows.entry.values.now rows.entry.marks.now }
{
    for j in 0..by {
        if !same_value(rows, p + j, q + j) {
            return false;
        }
    }
    true
}

// Whether the cell at q has the words v and m.
pub fn has_words(rows: RowSlice<'_>, q: usize, v: i64, m: i64) -> bool
    requires { CellIn q rows.values.now rows.marks.now }
    ensures { result ≡ true → cell_at q rows.entry.values.now rows.entry.marks.now ≡ cell_of v m }
{
    if rows.values[q] != v {
        return false;
    }
    if rows.marks[q] != m {
        return false;
    }
    true
}

// Whether the first cells of four rows, from place q on, all have the words v and m.
fn four_have(rows: RowSlice<'_>, q: usize, v: i64, m: i64) -> bool
    requires { CellIn (q + rows.width + rows.width + rows.width) rows.values.now rows.marks.now }
    ensures { result ≡ true → (j : ℕ) → j < 4 → cell_at (q + j * rows.entry.width) rows.entry.values.now rows.entry.marks.now ≡ cell_of v m }
{
    if !has_words(rows, q, v, m) {
        return false;
    }
    let b = q + rows.width;
    if !has_words(rows, b, v, m) {
        return false;
    }
    let c = b + rows.width;
    if !has_words(rows, c, v, m) {
        return false;
    }
    has_words(rows, c + rows.width, v, m)
}

// From row e on, up to row n: how far the first cells have the words v and m.
fn words_end(rows: RowSlice<'_>, e: usize, v: i64, m: i64) -> usize
    requires { RowsTo 1 rows.width rows.count rows.values.now rows.marks.now e }
    ensures { Have rows.entry.width e rows.entry.count rows.entry.values.now rows.entry.marks.now (cell_of v m) result }
{
    for i in e..rows.count {
        if !has_words(rows, i * rows.width, v, m) {
            return i;
        }
    }
    rows.count
}

// The same, four rows at a time: where not all four have these words, or fewer than four are left, it stops.
fn fours_end(rows: RowSlice<'_>, e: usize, v: i64, m: i64) -> usize
    requires { RowsTo 1 rows.width rows.count rows.values.now rows.marks.now e }
    ensures { Have rows.entry.width e rows.entry.count rows.entry.values.now rows.entry.marks.now (cell_of v m) result }
{
    let mut left = rows.count - e;
    let mut q = e * rows.width;
    // A while: four rows a turn.
    while 3 < left {
        if !four_have(rows, q, v, m) {
            return rows.count - left;
        }
        q += 4 * rows.width;
        left -= 4;
    }
    rows.count - left
}

// With one by-column. Short stretches are the work of single steps; only a longer one is worth four rows at a time.
fn one_end(rows: RowSlice<'_>, i: usize) -> usize
    requires { RowsTo 1 rows.width rows.count rows.values.now rows.marks.now i × (i < rows.count) }
    ensures { SameTo 1 rows.entry.width rows.entry.count rows.entry.values.now rows.entry.marks.now i result }
{
    let p = i * rows.width;
    let v = rows.values[p];
    let m = rows.marks[p];
    if rows.count - i <= 9 {
        return words_end(rows, i + 1, v, m);
    }
    let e = words_end(
        RowSlice {
            count: i + 9,
            ..rows
        },
        i + 1,
        v,
        m,
    );
    if e < i + 9 {
        return e;
    }
    fours_end(rows, e, v, m)
}

// With more by-columns.
fn many_end(rows: RowSlice<'_>, i: usize, by: usize) -> usize
    requires { RowsTo by rows.width rows.count rows.values.now rows.marks.now i × (i < rows.count) }
    ensures { SameTo by rows.entry.width rows.entry.count rows.entry.values.now rows.entry.marks.now i result }
{
    for e in i + 1..rows.count {
        let q = e * rows.width;
        if !same_words(rows, q - rows.width, q, by) {
            return e;
        }
    }
    rows.count
}

// How far the rows behind row i, of n, have its by-values, word for word. It may stop before the last of them: what stands there is then compared by the rules.
#[inline(always)]
pub fn same_end(rows: RowSlice<'_>, i: usize, by: usize) -> usize
    requires { RowsTo by rows.width rows.count rows.values.now rows.marks.now i × (i < rows.count) }
    ensures { SameTo by rows.entry.width rows.entry.count rows.entry.values.now rows.entry.marks.now i result }
{
    if by == 0 {
        return rows.count;
    }
    if by == 1 {
        return one_end(rows, i);
    }
    many_end(rows, i, by)
}
