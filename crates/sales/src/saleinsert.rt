// A sale added to the rows of subtotals that words hold: to its group's row, or as a row of its own.
ghost use Rattle.std.specs.Prelude.{◌≡◌, List, [], ◌∷◌, ◌++◌, ℕ, ◌+◌, ◌-◌, pos, ◌+ℤ◌, take, drop, get_or};
ghost use Rattle.std.proofs.Math.Seq.{paste};
ghost use Rattle.frames.specs.Cells.{Words};
ghost use Rattle.order.specs.options.Options.{with_list};
ghost use Rattle.sales.specs.saleinsert.Held.{AddIn, OpenIn, PutIn, Inserted};

use crate::salewrite::{put_sale, shift_up};
use order::options::Terms;

// The row at a is written again, with one more sale in its total and its count.
fn add_to(body: &mut [i64], a: usize, values: &[i64], q: usize, by: usize, amount: i64)
    requires { AddIn a q by values.now amount body.old }
    ensures { body.new ≡ paste body.old a (take by (drop q values.now) ++ (get_or body.old (a + by) (pos 0) +ℤ amount) ∷ (get_or body.old (a + by + 1) (pos 0) +ℤ pos 1) ∷ []) (by + 2) }
{
    let t = a + by;
    let total = body[t] + amount;
    let count = body[t + 1] + 1;
    put_sale(body, a, values, q, by, total, count);
}

// The rows from a to `end` move up, and the sale's row is written at a.
fn open_row(
    body: &mut [i64],
    a: usize,
    end: usize,
    values: &[i64],
    q: usize,
    by: usize,
    amount: i64,
)
    requires { OpenIn a end q by values.now body.old }
    ensures { body.new ≡ paste (paste body.old (a + (by + 2)) (drop a body.old) (end - a)) a (take by (drop q values.now) ++ amount ∷ pos 1 ∷ []) (by + 2) }
{
    shift_up(body, a, end, by + 2);
    put_sale(body, a, values, q, by, amount, 1);
}

// The sale of the left row at q, of this amount, is added to n rows: to the row that is told, or as one before it; answers how many rows there are then.
#[inline(always)]
pub fn put_at(
    body: &mut [i64],
    n: usize,
    row: usize,
    here: bool,
    values: &[i64],
    q: usize,
    amount: i64,
    o: Terms,
) -> usize
    requires { PutIn o.by n row here q values.now amount body.old }
    ensures { (ms codes : Words) (rising : List ℕ) → Inserted (with_list o codes rising) n row here q values.now ms amount body.old result body.new }
{
    let by = o.by;
    let w = by + 2;
    let a = row * w;
    if here {
        add_to(body, a, values, q, by, amount);
        return n;
    }
    open_row(body, a, n * w, values, q, by, amount);
    n + 1
}
