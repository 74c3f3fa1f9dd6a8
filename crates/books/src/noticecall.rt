// Which notice stands: the call that says of each row of a sorted book whether it stands, and which row it names.
ghost use Rattle.std.specs.Prelude.{◌≤◌, length};
ghost use Rattle.order.specs.options.Options.{options_of};
ghost use Rattle.frames.specs.Cells.{rows_in};
ghost use Rattle.books.specs.Calls.{StandContract};
ghost use Rattle.books.specs.noticecall.BookRows.{BookIn, ListContract};

use crate::bookjudge::judge_book;
use crate::notices::put_notices;
use frames::RowSlice;
use frames::refusals::Refusal;
use groups::neighbours::is_sorted;
use order::options::{Options, Rules, right_columns};
use rows::framerule::{has_room, row_count};
use tables::put_head;

// The notices of n rows, each w wide, as a table of two columns; refused by 13 for a place that is no carried column, by 14 where the rows are not sorted, by 6 where the output is too short.
fn list_notices(
    rows: RowSlice<'_>,
    column: usize,
    rules: Rules<'_>,
    out: &mut [i64],
) -> Result<usize, Refusal>
    requires { BookIn (options_of rules) rows.width rows.count rows.values.now rows.marks.now }
    ensures { ListContract (options_of rules.entry) column (rows_in rows.entry) out.old result out.new }
{
    if rules.terms.carried <= column {
        return Err(Refusal::BadColumns);
    }
    if !is_sorted(rows, rules) {
        return Err(Refusal::Unsorted);
    }
    if !has_room(rows.count, 2, out.len()) {
        return Err(Refusal::NoRoom);
    }
    put_notices(rows, column, rules, 2 * rows.count, out);
    put_head(out, rows.count, 2);
    Ok(rows.count)
}

// The same of a book that is handed in whole, under these options.
fn stand_listed(
    book: &[i64],
    column: usize,
    rules: Rules<'_>,
    out: &mut [i64],
) -> Result<usize, Refusal>
    requires { (64 ≤ length rules.codes.now) × (64 ≤ length rules.rising.now) }
    ensures { StandContract (options_of rules.entry) column book.now out.old result out.new }
{
    judge_book(book, rules)?;
    let w = right_columns(rules.terms);
    let n = row_count(book);
    let e = 2 + n * w;
    list_notices(
        RowSlice {
            values: &book[2..e],
            marks: &book[e..],
            count: n,
            width: w,
        },
        column,
        rules,
        out,
    )
}

// Says of each row of a sorted book: 1 if it stands, else 0, and the row that it names. The carried column of that place, from 0, tells which notices withdraw.
pub fn standing(book: &[i64], column: usize, o: Options, out: &mut [i64]) -> Result<usize, Refusal>
    ensures { StandContract o column book.now out.old result out.new }
{
    stand_listed(book, column, o.rules(), out)
}
