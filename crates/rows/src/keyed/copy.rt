// A row by value, with the flag that says whether there is one.
ghost use Rattle.std.specs.Prelude.{◌≡◌, ℤ};
ghost use Rattle.frames.specs.Cells.{cell_of, row_from, value_word, mark_word};
ghost use Rattle.order.specs.Keyed.{no_row, remember};
ghost use Rattle.order.specs.Requires.{SmallRow};

use frames::RowSlice;
use order::Row;

// The value word of a cell: 0 where it is null.
fn value_word(value: i64, mark: i64) -> i64
    ensures { result ≡ value_word (cell_of value mark) }
{
    if mark == 0 {
        return 0;
    }
    value
}

// The mark word of a cell: 1, or 0 where it is null.
fn mark_word(mark: i64) -> i64
    ensures { (v : ℤ) → result ≡ mark_word (cell_of v mark) }
{
    if mark == 0 {
        return 0;
    }
    1
}

// No row.
pub fn no_row() -> Row
    ensures { result ≡ no_row }
{
    Row {
        some: false,
        values: [0; 5],
        marks: [0; 5],
    }
}

// The row of width w at p, copied.
pub fn copy_row(rows: RowSlice<'_>, p: usize) -> Row
    requires { SmallRow rows.width p rows.values.now rows.marks.now }
    ensures { result ≡ remember (row_from rows.entry.width p rows.entry.values.now rows.entry.marks.now) }
{
    let mut v = [0i64; 5];
    let mut m = [0i64; 5];
    for j in 0..rows.width {
        let k = p + j;
        v[j] = value_word(rows.values[k], rows.marks[k]);
        m[j] = mark_word(rows.marks[k]);
    }
    Row {
        some: true,
        values: v,
        marks: m,
    }
}
