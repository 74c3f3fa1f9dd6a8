// Two tables of subtotals with the numbers beside them, joined in one call.
ghost use Rattle.std.specs.Prelude.{◌≤◌, length};
ghost use Rattle.frames.specs.Cells.{rows_of, rows_in};
ghost use Rattle.order.specs.options.Options.{options_of};
ghost use Rattle.subtotals.specs.joincall.JoinRows.{SheetsIn, RowsContract, JoinContract};

use crate::takejoin::count_joined;
use crate::takejudge::{is_beyond, is_fine};
use crate::takewords::judge_tables;
use crate::takewrite::put_joined;
use frames::RowSlice;
use frames::refusals::Refusal;
use order::options::{Options, Rules};
use rows::framerule::{has_room, row_count};
use tables::put_head;
use takings::Taken;

// Two tables of one width, written as one; refused by 14 where one has a null or groups out of order, by 15 beyond the bounds, by 6 where the output is too short.
fn join_rows(
    table: RowSlice<'_>,
    number: i64,
    added: RowSlice<'_>,
    other: i64,
    rules: Rules<'_>,
    out: &mut [i64],
) -> Result<Taken, Refusal>
    requires { SheetsIn (options_of rules) table.width table.count table.values.now table.marks.now added.count added.values.now added.marks.now }
    ensures { RowsContract (options_of rules.entry) table.entry.width (rows_in table.entry) number (rows_of table.entry.width added.entry.count added.entry.values.now added.entry.marks.now) other out.old result out.new }
{
    if !is_fine(table, rules) {
        return Err(Refusal::Unsorted);
    }
    if !is_fine(
        RowSlice {
            width: table.width,
            ..added
        },
        rules,
    ) {
        return Err(Refusal::Unsorted);
    }
    if is_beyond(table, number, added, other, rules.terms) {
        return Err(Refusal::Beyond);
    }
    let n = count_joined(table, added, rules);
    if !has_room(n, table.width, out.len()) {
        return Err(Refusal::NoRoom);
    }
    put_joined(table, added, rules, n * table.width, out);
    put_head(out, n, table.width);
    Ok(Taken {
        rows: n,
        number: number + other,
    })
}

// The same of two tables that are handed in whole, under these options.
fn join_listed(
    table: &[i64],
    number: i64,
    other: &[i64],
    other_number: i64,
    rules: Rules<'_>,
    out: &mut [i64],
) -> Result<Taken, Refusal>
    requires { (64 ≤ length rules.codes.now) × (64 ≤ length rules.rising.now) }
    ensures { JoinContract (options_of rules.entry) table.now number other.now other_number out.old result out.new }
{
    judge_tables(table, other, rules)?;
    let w = rules.terms.by + 2;
    let na = row_count(table);
    let nb = row_count(other);
    let e = 2 + na * w;
    let f = 2 + nb * w;
    join_rows(
        RowSlice {
            values: &table[2..e],
            marks: &table[e..],
            count: na,
            width: w,
        },
        number,
        RowSlice {
            values: &other[2..f],
            marks: &other[f..],
            count: nb,
            width: w,
        },
        other_number,
        rules,
        out,
    )
}

// Joins two tables of subtotals into one in group order, each with the number of matched sales without an amount beside it: totals, sale counts and numbers are added.
pub fn join_takings(
    table: &[i64],
    number: i64,
    other: &[i64],
    other_number: i64,
    o: Options,
    out: &mut [i64],
) -> Result<Taken, Refusal>
    ensures { JoinContract o table.now number other.now other_number out.old result out.new }
{
    join_listed(table, number, other, other_number, o.rules(), out)
}
