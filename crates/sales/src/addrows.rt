// A table of subtotals and a frame's sales by their rows: refused, or added and written.
ghost use Rattle.std.specs.Prelude.{suc};
ghost use Rattle.frames.specs.Cells.{rows_of, rows_in};
ghost use Rattle.order.specs.options.Options.{options_of};
ghost use Rattle.takings.specs.Sales.{sales_of};
ghost use Rattle.sales.specs.addrows.Rows.{AddIn, RowsContract};

use crate::salegrow::write_sales;
use crate::saleweigh::{rows_fit, weigh};
use frames::RowSlice;
use frames::refusals::Refusal;
use order::options::Rules;
use subtotals::takejudge::is_fine;
use takings::Taken;

// A table with the sales of left rows and their answer rows; refused by 14, 15 or 6, or written.
pub fn add_rows(
    table: RowSlice<'_>,
    number: i64,
    left: RowSlice<'_>,
    answers: RowSlice<'_>,
    rules: Rules<'_>,
    out: &mut [i64],
) -> Result<Taken, Refusal>
    requires { AddIn (options_of rules) table.width table.count table.values.now table.marks.now left.count answers.width left.values.now left.marks.now answers.values.now answers.marks.now }
    ensures { RowsContract (options_of rules.entry) table.entry.width (rows_in table.entry) number (sales_of (options_of rules.entry) (rows_of (suc rules.entry.terms.by) left.entry.count left.entry.values.now left.entry.marks.now) (rows_of answers.entry.width left.entry.count answers.entry.values.now answers.entry.marks.now)) out.old result out.new }
{
    if !is_fine(table, rules) {
        return Err(Refusal::Unsorted);
    }
    let t = weigh(table, number, left, answers, rules.terms);
    if t.beyond {
        return Err(Refusal::Beyond);
    }
    if !rows_fit(table, left, answers, t.sales, out.len(), rules) {
        return Err(Refusal::NoRoom);
    }
    let m = write_sales(table, left, answers, rules, out);
    Ok(Taken {
        rows: m,
        number: number + t.nulls as i64,
    })
}
