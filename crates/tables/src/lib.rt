// Tables, which are frames of any number of rows: writing their cells, and what a call over tables returns.
#![tactic(auto)]

pub mod tableresults;

ghost use Rattle.std.specs.Prelude.{◌≡◌, ◌+◌, pos, set};
ghost use Rattle.frames.specs.Cells.{row_from};
ghost use Rattle.tables.specs.Lay.{lay_cells, CellRoom, HeadRoom};
ghost use Rattle.tables.specs.Requires.{CopyRoom};

use frames::RowSlice;

// Cell k of a table of m cells goes to its two places: its value behind the two head words, its mark behind all values.
pub fn put_cell(out: &mut [i64], m: usize, k: usize, value: i64, mark: i64)
    requires { CellRoom m k out.old }
    ensures { out.new ≡ set (set out.old (2 + k) value) (2 + m + k) mark }
{
    out[2 + k] = value;
    out[2 + m + k] = mark;
}

// The head words of a table of n rows and c columns.
pub fn put_head(out: &mut [i64], n: usize, c: usize)
    requires { HeadRoom n c out.old }
    ensures { out.new ≡ set (set out.old 0 (pos n)) 1 (pos c) }
{
    out[0] = n as i64;
    out[1] = c as i64;
}

// The row of w cells at p is copied to the cells from k on, of m.
pub fn put_row(out: &mut [i64], m: usize, k: usize, rows: RowSlice<'_>, p: usize)
    requires { CopyRoom m k p rows.width rows.values.now rows.marks.now out.old }
    ensures { out.new ≡ lay_cells m k (row_from rows.entry.width p rows.entry.values.now rows.entry.marks.now) out.old }
{
    for j in 0..rows.width {
        let q = p + j;
        put_cell(out, m, k + j, rows.values[q], rows.marks[q]);
    }
}
