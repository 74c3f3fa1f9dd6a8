// Rows of subtotals, written: one table's row as it is, or two tables' rows of one group together.
ghost use Rattle.std.specs.Prelude.{◌≡◌, nat_abs};
ghost use Rattle.frames.specs.Cells.{row_from};
ghost use Rattle.tables.specs.Lay.{lay_cells};
ghost use Rattle.takings.specs.Subtotals.{plus, row_of};
ghost use Rattle.subtotals.specs.takejoin.Join.{told, SubRoom, OneRoom};

use frames::RowSlice;
use tables::{put_cell, put_row};

// A subtotal goes to the cells from k on, of m: the group at p, its total and its sale count.
fn put_subtotal(
    out: &mut [i64],
    m: usize,
    k: usize,
    rows: RowSlice<'_>,
    p: usize,
    by: usize,
    total: i64,
    count: i64,
)
    requires { SubRoom m k p by rows.values.now rows.marks.now count out.old }
    ensures { out.new ≡ lay_cells m k (row_of (record { group = row_from by p rows.entry.values.now rows.entry.marks.now; total = total; count = nat_abs count })) out.old }
{
    put_row(out, m, k, RowSlice { width: by, ..rows }, p);
    put_cell(out, m, k + by, total, 1);
    put_cell(out, m, k + by + 1, count, 1);
}

// Row i of a table of subtotals goes to the cells from k on, of m.
pub fn put_one(out: &mut [i64], m: usize, k: usize, rows: RowSlice<'_>, i: usize, by: usize)
    requires { OneRoom by rows.width rows.count i rows.values.now rows.marks.now m k out.old }
    ensures { out.new ≡ lay_cells m k (row_of (told by rows.entry.width i rows.entry.values.now rows.entry.marks.now)) out.old }
{
    let p = i * rows.width;
    let s = p + by;
    put_subtotal(out, m, k, rows, p, by, rows.values[s], rows.values[s + 1]);
}

// Rows i and j of two tables, of one group, go together to the cells from k on, of m.
pub fn put_sum(
    out: &mut [i64],
    m: usize,
    k: usize,
    table: RowSlice<'_>,
    i: usize,
    added: RowSlice<'_>,
    j: usize,
    by: usize,
)
    requires { OneRoom by table.width table.count i table.values.now table.marks.now m k out.old × OneRoom by table.width added.count j added.values.now added.marks.now m k out.old }
    ensures { out.new ≡ lay_cells m k (row_of (plus (told by table.entry.width i table.entry.values.now table.entry.marks.now) (told by table.entry.width j added.entry.values.now added.entry.marks.now))) out.old }
{
    let p = i * table.width;
    let s = p + by;
    let t = j * table.width + by;
    let total = table.values[s] + added.values[t];
    let count = table.values[s + 1] + added.values[t + 1];
    put_subtotal(out, m, k, table, p, by, total, count);
}
