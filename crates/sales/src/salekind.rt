// The sales of a left frame and its answer frame, row by row: which are matched and have an amount, and how many.
ghost use Rattle.std.specs.Prelude.{◌≡◌, List, ℕ, suc, ◌+◌, ◌≤◌, ◌<◌, length};
ghost use Rattle.frames.specs.Cells.{row_from, rows_of, Words};
ghost use Rattle.order.specs.options.Options.{with_list, without_list};
ghost use Rattle.takings.specs.Sales.{sales_of};
ghost use Rattle.sales.specs.salekind.Kinds.{kind_of, KindIn, FrameIn, Tallied};

use frames::RowSlice;
use order::options::Terms;
use rows::cells::distance;
use rows::keyed::{null_at, null_group};

// What a left row is with its answer row: unmatched, matched without an amount, or matched with one.
#[derive(Clone, Copy, PartialEq, Eq, Debug)]
pub enum Kind {
    Unmatched,
    Nothing,
    Amount,
}

// How many matched sales have an amount and how many have none; or that an amount is beyond its bounds.
#[derive(Clone, Copy)]
pub struct Tally {
    pub sales: usize,
    pub nulls: usize,
    pub beyond: bool,
}

// The left row at q and the answer row at z.
pub fn kind_of(left: &[i64], q: usize, answer: &[i64], z: usize, o: Terms) -> Kind
    requires { KindIn o.by q left.now z answer.now }
    ensures { (lv av : Words) (d : ℕ) → q + o.by < length lv → z + 1 < length av → 2 ≤ d → result ≡ kind_of (without_list o) (row_from (suc o.by) q lv left.now) (row_from d z av answer.now) }
{
    if null_at(answer, z) {
        return Kind::Unmatched;
    }
    if null_group(left, q, o) {
        return Kind::Unmatched;
    }
    if null_at(answer, z + 1) {
        return Kind::Nothing;
    }
    Kind::Amount
}

// All rows.
pub fn count_kinds(left: RowSlice<'_>, answers: RowSlice<'_>, o: Terms) -> Tally
    requires { FrameIn o.by left.count answers.width left.marks.now answers.values.now answers.marks.now }
    ensures { (lv codes : Words) (rising : List ℕ) → length left.entry.marks.now ≤ length lv → Tallied (sales_of (with_list o codes rising) (rows_of (suc o.by) left.entry.count lv left.entry.marks.now) (rows_of answers.entry.width left.entry.count answers.entry.values.now answers.entry.marks.now)) result.sales result.nulls result.beyond }
{
    let c = o.by + 1;
    let mut sales = 0;
    let mut nulls = 0;
    for i in 0..left.count {
        let z = i * answers.width;
        match kind_of(left.marks, i * c, answers.marks, z, o) {
            Kind::Unmatched => {}
            Kind::Nothing => {
                nulls += 1;
            }
            Kind::Amount => {
                if 1000000000 < distance(answers.values[z + 1], 0) {
                    return Tally {
                        sales: 0,
                        nulls: 0,
                        beyond: true,
                    };
                }
                sales += 1;
            }
        }
    }
    Tally {
        sales,
        nulls,
        beyond: false,
    }
}
