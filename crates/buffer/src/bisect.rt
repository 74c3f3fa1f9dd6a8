// Binary search over the rows of a stretch, by the cells of one column.
ghost use Rattle.std.specs.Prelude.{◌≡◌, ℕ, ◌≤◌};
ghost use Rattle.order.specs.ranks.Ranks.{Indexed};
ghost use Rattle.frames.specs.Cells.{cell_of, rows_of};
ghost use Rattle.order.specs.Order.{cmp_cell};
ghost use Rattle.order.specs.Requires.{cell_at, CellIn};
ghost use Rattle.searching.specs.Search.{meets, find};
ghost use Rattle.searching.specs.Requires.{ColumnIn};

use frames::RowSlice;
use rows::cells::{cmp_cell, cmp_listed};
use searching::Seek;
use std::cmp::Ordering;

// Whether a cell with this order to the cell sought is one that the search looks for.
fn is_met(seek: Seek, order: Ordering) -> bool
    ensures { result ≡ meets seek order }
{
    // A match: the definitions of the searches speak of Seek, and have the same three arms.
    match seek {
        Seek::AtLeast => match order {
            Ordering::Less => false,
            Ordering::Equal => true,
            Ordering::Greater => true,
        },
        Seek::Above => match order {
            Ordering::Less => false,
            Ordering::Equal => false,
            Ordering::Greater => true,
        },
    }
}

// Whether the cell at place k is one that the search looks for.
fn probe(
    seek: Seek,
    descending: bool,
    nulls_last: bool,
    codes: &[i64],
    rising: &[u8],
    value: i64,
    mark: i64,
    rows: RowSlice<'_>,
    k: usize,
) -> bool
    requires { Indexed codes.now rising.now × CellIn k rows.values.now rows.marks.now }
    ensures { result ≡ meets seek (cmp_cell (record { descending = descending; nulls_last = nulls_last; codes = codes.now }) (cell_at k rows.entry.values.now rows.entry.marks.now) (cell_of value mark)) }
{
    let v = rows.values[k];
    let m = rows.marks[k];
    let order = if codes.len() == 0 {
        cmp_cell(v, m, value, mark, descending, nulls_last)
    } else {
        cmp_listed(v, m, value, mark, descending, nulls_last, codes, rising)
    };
    is_met(seek, order)
}

// The first row of lower..upper whose cell in column j is one that is looked for, by the column's rule; the end of the range where there is none.
#[inline(always)]
pub fn find(
    seek: Seek,
    descending: bool,
    nulls_last: bool,
    codes: &[i64],
    rising: &[u8],
    j: usize,
    value: i64,
    mark: i64,
    rows: RowSlice<'_>,
    lower: usize,
    upper: usize,
) -> usize
    requires { Indexed codes.now rising.now × ColumnIn j rows.width upper rows.values.now rows.marks.now }
    ensures { (n : ℕ) → upper ≤ n → result ≡ find seek (record { descending = descending; nulls_last = nulls_last; codes = codes.now }) j (cell_of value mark) (rows_of rows.entry.width n rows.entry.values.now rows.entry.marks.now) lower upper }
{
    let mut low = lower;
    let mut high = upper;
    // A while: each turn halves what is left.
    while low < high {
        let mid = (low + high) / 2;
        if probe(
            seek,
            descending,
            nulls_last,
            codes,
            rising,
            value,
            mark,
            rows,
            mid * rows.width + j,
        ) {
            high = mid;
        } else {
            low = mid + 1;
        }
    }
    low
}
