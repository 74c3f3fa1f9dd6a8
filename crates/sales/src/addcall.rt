// A frame's sales, added to a table of subtotals and the number beside it in one call.
ghost use Rattle.std.specs.Prelude.{◌≡◌, true, ◌≤◌, length};
ghost use Rattle.order.specs.options.Options.{options_of};
ghost use Rattle.takings.specs.Calls.{any_frame, columns_in};
ghost use Rattle.sales.specs.addcall.AddRows.{AddContract};

use crate::addrows::add_rows;
use frames::RowSlice;
use frames::refusals::Refusal;
use order::options::{Options, Rules};
use rows::framerule::row_count;
use subtotals::takewords::judge_sales;
use takings::Taken;

// The columns that a frame says it has.
fn column_count(words: &[i64]) -> usize
    requires { any_frame words.now ≡ true }
    ensures { result ≡ columns_in words.now }
{
    words[1] as usize
}

// The same of a table, a left frame and its answer frame that are handed in whole, under these options.
fn add_listed(
    table: &[i64],
    number: i64,
    left: &[i64],
    answers: &[i64],
    rules: Rules<'_>,
    out: &mut [i64],
) -> Result<Taken, Refusal>
    requires { (64 ≤ length rules.codes.now) × (64 ≤ length rules.rising.now) }
    ensures { AddContract (options_of rules.entry) table.now number left.now answers.now out.old result out.new }
{
    judge_sales(table, left, answers, rules)?;
    let by = rules.terms.by;
    let w = by + 2;
    let c = by + 1;
    let d = column_count(answers);
    let n = row_count(table);
    let rows = row_count(left);
    let e = 2 + n * w;
    let f = 2 + rows * c;
    let g = 2 + rows * d;
    add_rows(
        RowSlice {
            values: &table[2..e],
            marks: &table[e..],
            count: n,
            width: w,
        },
        number,
        RowSlice {
            values: &left[2..f],
            marks: &left[f..],
            count: rows,
            width: c,
        },
        RowSlice {
            values: &answers[2..g],
            marks: &answers[g..],
            count: rows,
            width: d,
        },
        rules,
        out,
    )
}

// Adds the matched sales of a left frame and its answer frame to a table of subtotals in group order; those without an amount are counted in the number beside it.
pub fn add_sales(
    table: &[i64],
    number: i64,
    left: &[i64],
    answers: &[i64],
    o: Options,
    out: &mut [i64],
) -> Result<Taken, Refusal>
    ensures { AddContract o table.now number left.now answers.now out.old result out.new }
{
    add_listed(table, number, left, answers, o.rules(), out)
}
