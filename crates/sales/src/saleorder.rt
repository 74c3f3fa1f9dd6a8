// How many rows a table has once a frame's sales are added, counted in one walk over both, if the sales come in group order.
ghost use Rattle.std.specs.Prelude.{◌≡◌, cond, List, ℕ, suc, ◌+◌, ◌^◌, ◌≤◌, ◌<◌, length};
ghost use Rattle.frames.specs.Cells.{row_from, rows_of, Words};
ghost use Rattle.order.specs.options.Options.{options_of};
ghost use Rattle.takings.specs.Subtotals.{Subtotal, add_all};
ghost use Rattle.takings.specs.Sales.{sales_of, amounts_of};
ghost use Rattle.sales.specs.salecount.Counts.{TableIs, CountIn};
ghost use Rattle.sales.specs.saleorder.Ordered.{side_of, SideIn};

use crate::salekind::{Kind, kind_of};
use crate::saleplace::reach;
use frames::RowSlice;
use order::options::Rules;
use rows::compare::cmp_group;
use std::cmp::Ordering;

// How the group of the last sale, at p, stands to that of the left row at q, with its answer row at z; the first sale is behind. A row that is no sale with an amount is as if it were of the last group: it makes no row.
fn side_of(
    any: bool,
    p: usize,
    left: RowSlice<'_>,
    q: usize,
    answers: RowSlice<'_>,
    z: usize,
    rules: Rules<'_>,
) -> Ordering
    requires { SideIn (options_of rules) any p q left.values.now left.marks.now z answers.marks.now }
    ensures { (av : Words) (d : ℕ) → z + 1 < length av → 2 ≤ d → result ≡ side_of (options_of rules.entry) any (row_from (suc rules.entry.terms.by) p left.entry.values.now left.entry.marks.now) (row_from (suc rules.entry.terms.by) q left.entry.values.now left.entry.marks.now) (row_from d z av answers.entry.marks.now) }
{
    if kind_of(left.marks, q, answers.marks, z, rules.terms) != Kind::Amount {
        return Ordering::Equal;
    }
    if any {
        return cmp_group(left, p, left, q, rules);
    }
    Ordering::Less
}

// One more, unless it stays.
fn more(m: usize, stays: bool) -> usize
    requires { m < 2 ^ 63 }
    ensures { result ≡ cond stays m (m + 1) }
{
    if stays {
        return m;
    }
    m + 1
}

// How many rows a table of subtotals and the sales of a frame make: each group that the table has not is one more. A group is looked for behind the table's rows up to the last one. None where the sales do not come in group order.
pub fn count_ordered(
    table: RowSlice<'_>,
    left: RowSlice<'_>,
    answers: RowSlice<'_>,
    rules: Rules<'_>,
) -> Option<usize>
    requires { CountIn (options_of rules) table.count left.count answers.width table.values.now left.values.now left.marks.now answers.marks.now }
    ensures { (ts : List Subtotal) (av : Words) (m : ℕ) → result ≡ Some m → length answers.entry.marks.now ≤ length av → TableIs (options_of rules.entry) table.entry.count ts table.entry.values.now → m ≡ length (add_all (options_of rules.entry) ts (amounts_of (sales_of (options_of rules.entry) (rows_of (suc rules.entry.terms.by) left.entry.count left.entry.values.now left.entry.marks.now) (rows_of answers.entry.width left.entry.count av answers.entry.marks.now)))) }
{
    let c = rules.terms.by + 1;
    let w = rules.terms.by + 2;
    let mut m = table.count;
    let mut near = 0;
    let mut any = false;
    let mut last = 0;
    for i in 0..left.count {
        let q = i * c;
        match side_of(any, last, left, q, answers, i * answers.width, rules) {
            Ordering::Less => {
                let p = reach(table.values, near, table.count, w, left, q, rules);
                m = more(m, p.here);
                near = more(p.row, !p.here);
                any = true;
                last = q;
            }
            Ordering::Equal => {}
            Ordering::Greater => {
                return None;
            }
        }
    }
    Some(m)
}
