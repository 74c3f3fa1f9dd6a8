// Two books, one season: the call that merges two sorted right tables into one.
ghost use Rattle.std.specs.Prelude.{◌≤◌, length};
ghost use Rattle.order.specs.options.Options.{options_of};
ghost use Rattle.frames.specs.Cells.{rows_of, rows_in};
ghost use Rattle.books.specs.Calls.{MergeContract};
ghost use Rattle.books.specs.bookmerge.BookRows.{BooksIn, BooksContract};

use crate::bookjudge::judge_books;
use crate::merge_rows;
use frames::RowSlice;
use frames::refusals::Refusal;
use groups::neighbours::is_sorted;
use order::options::{Options, Rules, right_columns};
use rows::framerule::{has_room, row_count};

// Two books of nh and nf rows, each w wide, written as one table; refused by 14 where one is not sorted, by 6 where the output is too short.
fn merge_books(
    house: RowSlice<'_>,
    festival: RowSlice<'_>,
    rules: Rules<'_>,
    out: &mut [i64],
) -> Result<usize, Refusal>
    requires { BooksIn (options_of rules) house.width house.count house.values.now house.marks.now festival.count festival.values.now festival.marks.now }
    ensures { BooksContract (options_of rules.entry) house.entry.width (rows_in house.entry) (rows_of house.entry.width festival.entry.count festival.entry.values.now festival.entry.marks.now) out.old result out.new }
{
    if !is_sorted(house, rules) {
        return Err(Refusal::Unsorted);
    }
    if !is_sorted(
        RowSlice {
            width: house.width,
            ..festival
        },
        rules,
    ) {
        return Err(Refusal::Unsorted);
    }
    let n = house.count + festival.count;
    if !has_room(n, house.width, out.len()) {
        return Err(Refusal::NoRoom);
    }
    merge_rows(house, festival, rules, out);
    Ok(n)
}

// The same of two books that are handed in whole, under these options.
fn merge_listed(
    house: &[i64],
    festival: &[i64],
    rules: Rules<'_>,
    out: &mut [i64],
) -> Result<usize, Refusal>
    requires { (64 ≤ length rules.codes.now) × (64 ≤ length rules.rising.now) }
    ensures { MergeContract (options_of rules.entry) house.now festival.now out.old result out.new }
{
    judge_books(house, festival, rules)?;
    let w = right_columns(rules.terms);
    let nh = row_count(house);
    let nf = row_count(festival);
    let e = 2 + nh * w;
    let f = 2 + nf * w;
    merge_books(
        RowSlice {
            values: &house[2..e],
            marks: &house[e..],
            count: nh,
            width: w,
        },
        RowSlice {
            values: &festival[2..f],
            marks: &festival[f..],
            count: nf,
            width: w,
        },
        rules,
        out,
    )
}

// Merges the house's book and the festival's, both sorted, into one sorted table: every row of both, and of rows that compare equal the house's first.
pub fn merge(house: &[i64], festival: &[i64], o: Options, out: &mut [i64]) -> Result<usize, Refusal>
    ensures { MergeContract o house.now festival.now out.old result out.new }
{
    merge_listed(house, festival, o.rules(), out)
}
