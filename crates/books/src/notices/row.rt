// One notice: what it says, and how that is written.
ghost use Rattle.std.specs.Prelude.{◌≡◌, not, ◌&&◌, [], ◌∷◌, ℕ, ◌+◌, ◌*◌, ◌<◌, ◌≤◌, eqb, length};
ghost use Rattle.frames.specs.Cells.{Cell, value, value_word, mark_word, Words, row_from};
ghost use Rattle.order.specs.options.Options.{without_list};
ghost use Rattle.order.specs.Requires.{cell_at, CellIn, MarksAt};
ghost use Rattle.tables.specs.Lay.{CellRoom, lay_cells};
ghost use Rattle.books.specs.Standing.{is_one, nameless};
ghost use Rattle.books.specs.notices.Requires.{notice_by, NoticeRoom};

use frames::RowSlice;
use order::options::Terms;
use rows::keyed::{null_at, null_group};
use tables::put_cell;

// Whether the key or the group of the row at p is null, whatever the row's width.
fn is_nameless(marks: &[i64], p: usize, o: Terms) -> bool
    requires { MarksAt (without_list o) p marks.now }
    ensures { (w : ℕ) (vs : Words) → o.by < w → p + o.by < length vs → result ≡ nameless (without_list o) (row_from w p vs marks.now) }
{
    if null_at(marks, p + o.by) {
        return true;
    }
    null_group(marks, p, o)
}

// Whether row i stands: it is the last of its group and key, and the cell at place k, where withdrawals are told, does not say 1.
fn stands(rows: RowSlice<'_>, k: usize, i: usize, last: usize) -> bool
    requires { CellIn k rows.values.now rows.marks.now }
    ensures { result ≡ (eqb last i && not (is_one (cell_at k rows.entry.values.now rows.entry.marks.now))) }
{
    if last != i {
        return false;
    }
    if null_at(rows.marks, k) {
        return true;
    }
    rows.values[k] != 1
}

// The two cells of a notice go to cells k and k + 1, of m.
fn put_pair(out: &mut [i64], m: usize, k: usize, flag: i64, named: i64, mark: i64)
    requires { CellRoom m (k + 1) out.old }
    ensures { (x : Cell) → value_word x ≡ named → mark_word x ≡ mark → out.new ≡ lay_cells m k (value flag ∷ x ∷ []) out.old }
{
    put_cell(out, m, k, flag, 1);
    put_cell(out, m, k + 1, named, mark);
}

// What is said of row i, whose group and key have `last` as their last row.
pub(crate) fn put_notice(
    rows: RowSlice<'_>,
    i: usize,
    column: usize,
    last: usize,
    o: Terms,
    m: usize,
    out: &mut [i64],
)
    requires { NoticeRoom (without_list o) rows.width i column last m rows.values.now rows.marks.now out.old }
    ensures { out.new ≡ lay_cells m (2 * i) (notice_by (without_list o) column i last (row_from rows.entry.width (i * rows.entry.width) rows.entry.values.now rows.entry.marks.now)) out.old }
{
    let p = i * rows.width;
    let k = 2 * i;
    if is_nameless(rows.marks, p, o) {
        put_pair(out, m, k, 0, 0, 0);
        return;
    }
    if stands(rows, p + (o.by + 1 + column), i, last) {
        put_pair(out, m, k, 1, 0, 0);
        return;
    }
    put_pair(out, m, k, 0, last as i64, 1);
}
