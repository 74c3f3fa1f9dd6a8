// The group of a row of subtotals, which words hold without marks, since none of its cells is null, against the group of a sale.
ghost use Rattle.std.specs.Prelude.{◌≡◌, false, not, ◌&&◌, [], suc, eqb, pos, get_or};
ghost use Rattle.frames.specs.Cells.{value, row_from};
ghost use Rattle.order.specs.options.Options.{has_list, options_of};
ghost use Rattle.order.specs.Order.{cmp_cell, cmp_group};
ghost use Rattle.order.specs.Requires.{cell_at};
ghost use Rattle.sales.specs.salegroup.Group.{plain, FirstAt, SaleAt};

use frames::RowSlice;
use order::options::{Rules, Terms, is_ranked};
use rows::cells::cmp_cell;
use rows::compare::cmp_group;
use std::cmp::Ordering;

// The first by-value of the row at p against that of the left row at q, in a column without a list.
pub fn cmp_first(body: &[i64], p: usize, left: RowSlice<'_>, q: usize, o: Terms) -> Ordering
    requires { FirstAt p body.now q left.values.now left.marks.now }
    ensures { result ≡ cmp_cell (record { descending = get_or o.descending 0 false; nulls_last = get_or o.nulls_last 0 false; codes = [] }) (value (get_or body.now p (pos 0))) (cell_at q left.entry.values.now left.entry.marks.now) }
{
    let descending = o.descending;
    let last = o.nulls_last;
    cmp_cell(
        body[p],
        1,
        left.values[q],
        left.marks[q],
        descending[0],
        last[0],
    )
}

// The group of the row at p against the group of the left row at q, column by column.
pub fn cmp_all(body: &[i64], p: usize, left: RowSlice<'_>, q: usize, rules: Rules<'_>) -> Ordering
    requires { SaleAt (options_of rules) p body.now q left.values.now left.marks.now }
    ensures { result ≡ cmp_group (options_of rules.entry) (plain rules.entry.terms.by p body.now) (row_from (suc rules.entry.terms.by) q left.entry.values.now left.entry.marks.now) }
{
    let ones = [1; 5];
    cmp_group(
        RowSlice {
            values: &body[p..],
            marks: &ones,
            count: 1,
            width: rules.terms.by,
        },
        0,
        left,
        q,
        rules,
    )
}

// Whether groups are of one by-value, without a list.
pub fn is_single(o: Terms) -> bool
    ensures { result ≡ (eqb o.by 1 && not (has_list o 0)) }
{
    o.by == 1 && !is_ranked(o, 0)
}

// The group of the row at p against the group of the left row at q. Groups of one by-value without a list compare by that alone.
#[inline(always)]
pub fn cmp_sale(body: &[i64], p: usize, left: RowSlice<'_>, q: usize, rules: Rules<'_>) -> Ordering
    requires { SaleAt (options_of rules) p body.now q left.values.now left.marks.now }
    ensures { result ≡ cmp_group (options_of rules.entry) (plain rules.entry.terms.by p body.now) (row_from (suc rules.entry.terms.by) q left.entry.values.now left.entry.marks.now) }
{
    if is_single(rules.terms) {
        return cmp_first(body, p, left, q, rules.terms);
    }
    cmp_all(body, p, left, q, rules)
}
