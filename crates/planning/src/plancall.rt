// How large an area to lend: the call that works out a schedule's figures from two sorted tables and the heights of their frames.
ghost use Rattle.std.specs.Prelude.{◌≡◌, ◌≤◌, length};
ghost use Rattle.order.specs.options.Options.{options_of};
ghost use Rattle.frames.specs.Cells.{rows_in};
ghost use Rattle.order.specs.Requires.{RowsIn};
ghost use Rattle.planning.specs.Call.{plan_call};
ghost use Rattle.planning.specs.plancall.PlanRows.{rows_planned};

use crate::Figures;
use crate::heights::fit_heights;
use crate::planjudge::judge_tables;
use crate::planwalk::walk_frames;
use frames::RowSlice;
use frames::refusals::Refusal;
use groups::neighbours::is_sorted;
use order::options::{Options, Rules, left_columns, right_columns};
use rows::framerule::row_count;

// The plan of nl left rows, each c wide, and nr right rows, each w wide; refused by 14 where one of the two is not sorted, by 17 where heights are no frames' or do not make the rows.
fn plan_rows(
    left: RowSlice<'_>,
    hl: &[i64],
    right: RowSlice<'_>,
    hr: &[i64],
    rules: Rules<'_>,
) -> Result<Figures, Refusal>
    requires { RowsIn (options_of rules) left.width left.count left.values.now left.marks.now × RowsIn (options_of rules) right.width right.count right.values.now right.marks.now }
    ensures { result ≡ rows_planned (options_of rules.entry) (rows_in left.entry) (rows_in right.entry) hl.now hr.now }
{
    if !is_sorted(left, rules) {
        return Err(Refusal::Unsorted);
    }
    if !is_sorted(right, rules) {
        return Err(Refusal::Unsorted);
    }
    if !fit_heights(hl, left.count) {
        return Err(Refusal::BadHeights);
    }
    if !fit_heights(hr, right.count) {
        return Err(Refusal::BadHeights);
    }
    Ok(walk_frames(left, hl, right, hr, rules))
}

// The same of two tables that are handed in whole, under these options.
fn plan_listed(
    left: &[i64],
    right: &[i64],
    hl: &[i64],
    hr: &[i64],
    rules: Rules<'_>,
) -> Result<Figures, Refusal>
    requires { (64 ≤ length rules.codes.now) × (64 ≤ length rules.rising.now) }
    ensures { result ≡ plan_call (options_of rules.entry) left.now right.now hl.now hr.now }
{
    judge_tables(left, right, rules)?;
    let c = left_columns(rules.terms);
    let w = right_columns(rules.terms);
    let nl = row_count(left);
    let nr = row_count(right);
    let e = 2 + nl * c;
    let f = 2 + nr * w;
    plan_rows(
        RowSlice {
            values: &left[2..e],
            marks: &left[e..],
            count: nl,
            width: c,
        },
        hl,
        RowSlice {
            values: &right[2..f],
            marks: &right[f..],
            count: nr,
            width: w,
        },
        hr,
        rules,
    )
}

// The figures of the schedule over two sorted tables, cut in frames of these heights: the most right rows held at once, the turn calls, the right frames taken.
pub fn plan(
    left: &[i64],
    right: &[i64],
    o: Options,
    hl: &[i64],
    hr: &[i64],
) -> Result<Figures, Refusal>
    ensures { result ≡ plan_call o left.now right.now hl.now hr.now }
{
    plan_listed(left, right, hl, hr, o.rules())
}
