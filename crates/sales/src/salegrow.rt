// A table of subtotals with a frame's sales added, written at the front of an output that has room for it.
ghost use Rattle.std.specs.Prelude.{◌≡◌, List, map, suc, length, drop};
ghost use Rattle.order.specs.options.Options.{options_of};
ghost use Rattle.tables.specs.Table.{table_of, laid};
ghost use Rattle.takings.specs.Subtotals.{Subtotal, add_all, row_of};
ghost use Rattle.sales.specs.saleadd.Adds.{amounts_in};
ghost use Rattle.sales.specs.salegrow.Grows.{Grows, WriteIn};

use crate::saleadd::add_frame;
use frames::RowSlice;
use order::options::Rules;
use tables::put_head;

// The whole result, as a table; answers its rows.
pub fn write_sales(
    table: RowSlice<'_>,
    left: RowSlice<'_>,
    answers: RowSlice<'_>,
    rules: Rules<'_>,
    out: &mut [i64],
) -> usize
    requires { WriteIn (options_of rules) table.count left.count answers.width table.values.now left.values.now left.marks.now answers.values.now answers.marks.now out.old }
    ensures { (ts : List Subtotal) → Grows (options_of rules.entry) table.entry.count left.entry.count answers.entry.width ts table.entry.values.now left.entry.values.now left.entry.marks.now answers.entry.values.now answers.entry.marks.now (drop 2 out.old) → (result ≡ length (add_all (options_of rules.entry) ts (amounts_in (options_of rules.entry) left.entry.count answers.entry.width left.entry.values.now left.entry.marks.now answers.entry.values.now answers.entry.marks.now))) × (out.new ≡ laid (table_of (suc (suc rules.entry.terms.by)) (map row_of (add_all (options_of rules.entry) ts (amounts_in (options_of rules.entry) left.entry.count answers.entry.width left.entry.values.now left.entry.marks.now answers.entry.values.now answers.entry.marks.now)))) out.old) }
{
    let w = rules.terms.by + 2;
    let m = add_frame(&mut out[2..], table, left, answers, rules);
    let start = 2 + m * w;
    let end = start + m * w;
    out[start..end].fill(1);
    put_head(out, m, w);
    m
}
