// A sale added to rows that are written in group order: the table's rows that come before it are passed to the output first.
ghost use Rattle.std.specs.Prelude.{◌≡◌, cond, suc, ◌+◌, ◌-◌, ◌*◌, ◌^◌, ◌<◌, drop};
ghost use Rattle.std.proofs.Math.Seq.{paste};
ghost use Rattle.frames.specs.Cells.{row_from};
ghost use Rattle.order.specs.options.Options.{options_of};
ghost use Rattle.sales.specs.salepass.Pass.{RowsRoom, SaleIn, Added, Behind};

use crate::saleinsert::put_at;
use crate::saleplace::{place_near, reach};
use crate::salewrite::copy_words;
use frames::RowSlice;
use order::options::Rules;

// How many rows are written, the place of the sale's row among them, and how many rows of the table they have taken in.
#[derive(Clone, Copy)]
pub struct Pass {
    pub rows: usize,
    pub place: usize,
    pub taken: usize,
}

// The rows from `from` to `to` of a table, each w wide, are copied behind m rows.
pub fn pass_rows(body: &mut [i64], m: usize, table: &[i64], from: usize, to: usize, w: usize)
    requires { RowsRoom m from to w table.now body.old }
    ensures { body.new ≡ paste body.old (m * w) (drop (from * w) table.now) ((to - from) * w) }
{
    copy_words(body, m * w, &table[from * w..to * w]);
}

// The row behind the place of a group: the next one, if the place is its row.
fn end_of(row: usize, here: bool) -> usize
    requires { row < 2 ^ 63 }
    ensures { result ≡ cond here (row + 1) row }
{
    if here {
        return row + 1;
    }
    row
}

// A sale behind all m rows: the table's rows up to its group are passed, and it is added to the last of them, or behind them.
fn put_behind(
    body: &mut [i64],
    m: usize,
    table: RowSlice<'_>,
    taken: usize,
    left: RowSlice<'_>,
    q: usize,
    amount: i64,
    rules: Rules<'_>,
) -> Pass
    requires { SaleIn (options_of rules) table.count m taken table.values.now q left.values.now left.marks.now amount body.old }
    ensures { Behind (options_of rules.entry) m body.old (row_from (suc rules.entry.terms.by) q left.entry.values.now left.entry.marks.now) → Added (options_of rules.entry) table.entry.count m taken table.entry.values.now q left.entry.values.now left.entry.marks.now amount body.old result.rows result.taken body.new }
{
    let w = rules.terms.by + 2;
    let p = reach(table.values, taken, table.count, w, left, q, rules);
    let end = end_of(p.row, p.here);
    pass_rows(body, m, table.values, taken, end, w);
    let place = m + (p.row - taken);
    let rows = put_at(
        body,
        m + (end - taken),
        place,
        p.here,
        left.values,
        q,
        amount,
        rules.terms,
    );
    Pass {
        rows,
        place,
        taken: end,
    }
}

// The sale of the left row at q, of this amount, is added to m rows; its row is first looked for near the row of the sale before.
pub fn add_sale(
    body: &mut [i64],
    m: usize,
    near: usize,
    table: RowSlice<'_>,
    taken: usize,
    left: RowSlice<'_>,
    q: usize,
    amount: i64,
    rules: Rules<'_>,
) -> Pass
    requires { SaleIn (options_of rules) table.count m taken table.values.now q left.values.now left.marks.now amount body.old }
    ensures { Added (options_of rules.entry) table.entry.count m taken table.entry.values.now q left.entry.values.now left.entry.marks.now amount body.old result.rows result.taken body.new }
{
    let w = rules.terms.by + 2;
    let p = place_near(body, m, w, near, left, q, rules);
    let place = p.row;
    if m <= place {
        return put_behind(body, m, table, taken, left, q, amount, rules);
    }
    let rows = put_at(body, m, place, p.here, left.values, q, amount, rules.terms);
    Pass { rows, place, taken }
}
