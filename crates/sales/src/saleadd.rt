// The matched sales of a frame with an amount, added one by one to a table of subtotals, whose rows are written beside them in group order.
ghost use Rattle.std.specs.Prelude.{List, suc};
ghost use Rattle.frames.specs.Cells.{rows_of};
ghost use Rattle.order.specs.options.Options.{options_of};
ghost use Rattle.takings.specs.Subtotals.{Subtotal, add_all};
ghost use Rattle.takings.specs.Sales.{sales_of, amounts_of};
ghost use Rattle.sales.specs.saleinsert.Held.{Held};
ghost use Rattle.sales.specs.saleadd.Adds.{Starts, AddsIn};

use crate::salekind::{Kind, kind_of};
use crate::salepass::{add_sale, pass_rows};
use frames::RowSlice;
use order::options::Rules;

// The sales of left rows and their answer rows are added to a table; answers how many rows there are then.
pub fn add_frame(
    body: &mut [i64],
    table: RowSlice<'_>,
    left: RowSlice<'_>,
    answers: RowSlice<'_>,
    rules: Rules<'_>,
) -> usize
    requires { AddsIn (options_of rules) table.count left.count answers.width table.values.now left.values.now left.marks.now answers.values.now answers.marks.now body.old }
    ensures { (ts : List Subtotal) → Starts (options_of rules.entry) table.entry.count left.entry.count answers.entry.width ts table.entry.values.now left.entry.values.now left.entry.marks.now answers.entry.values.now answers.entry.marks.now body.old → Held (options_of rules.entry) result (add_all (options_of rules.entry) ts (amounts_of (sales_of (options_of rules.entry) (rows_of (suc rules.entry.terms.by) left.entry.count left.entry.values.now left.entry.marks.now) (rows_of answers.entry.width left.entry.count answers.entry.values.now answers.entry.marks.now)))) body.old body.new }
{
    let c = rules.terms.by + 1;
    let mut m = 0;
    let mut near = 0;
    let mut taken = 0;
    for i in 0..left.count {
        let q = i * c;
        let z = i * answers.width;
        if kind_of(left.marks, q, answers.marks, z, rules.terms) == Kind::Amount {
            let amount = answers.values[z + 1];
            let p = add_sale(body, m, near, table, taken, left, q, amount, rules);
            m = p.rows;
            near = p.place;
            taken = p.taken;
        }
    }
    pass_rows(
        body,
        m,
        table.values,
        taken,
        table.count,
        rules.terms.by + 2,
    );
    m + (table.count - taken)
}
