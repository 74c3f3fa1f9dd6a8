// Two sorted tables joined pair by pair at boundaries: the call.
ghost use Rattle.std.specs.Prelude.{◌≡◌, ◌≤◌, length};
ghost use Rattle.order.specs.options.Options.{options_of};
ghost use Rattle.cutting.specs.cutpairs.Driver.{JoinContract};

use crate::cutjudge::judge_input;
use crate::cutrows::join_rows;
use frames::RowSlice;
use frames::refusals::Refusal;
use order::options::{Options, Rules, left_columns, right_columns};
use rows::framerule::row_count;

// The same of tables and boundaries that are handed in whole, under these options.
fn join_listed(
    left: &[i64],
    right: &[i64],
    boundaries: &[i64],
    l: usize,
    r: usize,
    rules: Rules<'_>,
    out: &mut [i64],
) -> Result<usize, Refusal>
    requires { (64 ≤ length rules.codes.now) × (64 ≤ length rules.rising.now) }
    ensures { JoinContract (options_of rules.entry) left.now right.now boundaries.now l r out.old result out.new }
{
    judge_input(left, right, boundaries, rules)?;
    let c = left_columns(rules.terms);
    let w = right_columns(rules.terms);
    let nl = row_count(left);
    let nr = row_count(right);
    let k = row_count(boundaries);
    let e = 2 + nl * c;
    let f = 2 + nr * w;
    let g = 2 + k * rules.terms.by;
    join_rows(
        RowSlice {
            values: &left[2..e],
            marks: &left[e..],
            count: nl,
            width: c,
        },
        RowSlice {
            values: &right[2..f],
            marks: &right[f..],
            count: nr,
            width: w,
        },
        RowSlice {
            values: &boundaries[2..g],
            marks: &boundaries[g..],
            count: k,
            width: rules.terms.by,
        },
        l,
        r,
        rules,
        out,
    )
}

// Joins two sorted tables, cut at boundaries. The areas are those in which the pairs can be joined one after the other; they are only measured.
pub fn join_cut(
    left: &[i64],
    right: &[i64],
    boundaries: &[i64],
    left_area: &[i64],
    right_area: &[i64],
    o: Options,
    out: &mut [i64],
) -> Result<usize, Refusal>
    ensures { JoinContract o left.now right.now boundaries.now (length left_area.now) (length right_area.now) out.old result out.new }
{
    let l = left_area.len();
    let r = right_area.len();
    join_listed(left, right, boundaries, l, r, o.rules(), out)
}
