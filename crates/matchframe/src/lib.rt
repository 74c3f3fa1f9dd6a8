// Matching the rows of a turn: pruning, the order check, the matches run by run, and the answer frame.
#![tactic(auto)]

pub mod carrying;
pub mod sortedrows;
pub mod turnanswer;
pub mod turnrows;

ghost use Rattle.std.specs.Prelude.{◌≡◌, map, ◌+◌, ◌*◌};
ghost use Rattle.frames.specs.Cells.{rows_in};
ghost use Rattle.order.specs.options.Options.{without_list, answer_columns, options_of};
ghost use Rattle.tables.specs.Lay.{flat, lay_cells};
ghost use Rattle.matching.specs.Match.{match_in};
ghost use Rattle.matching.specs.Groups.{runs, by_runs, match_frame};
ghost use Rattle.matching.specs.Answer.{answered, frame_answer};
ghost use Rattle.matching.specs.Stretches.{between, lay};
ghost use Rattle.matching.specs.Loops.{RunRoom};
ghost use Rattle.matching.specs.Requires.{FrameRoom, AnswerRoom};

use crate::carrying::spread_rows;
use frames::RowSlice;
use groups::{run_end, serve};
use matchrun::choices::put;
use matchrun::scan::match_row;
use matchrun::{is_short, match_run, scan_run};
use order::options::{Rules, Terms, answer_columns};
use tables::put_head;

// The runs of the left rows in order, each over the right run that has its group: their choices, into an answer of m cells. The one row of a
// short run is looked up here.
fn match_groups(
    left: RowSlice<'_>,
    right: RowSlice<'_>,
    number: usize,
    rules: Rules<'_>,
    m: usize,
    out: &mut [i64],
)
    requires { FrameRoom (options_of rules) left.width left.count left.values.now left.marks.now right.width right.count right.values.now right.marks.now number m out.old }
    ensures { out.new ≡ lay m 0 (by_runs (options_of rules.entry) number (runs (options_of rules.entry) (rows_in right.entry)) (runs (options_of rules.entry) (rows_in left.entry))) out.old }
{
    let mut at = 0;
    let mut end = run_end(right, at, rules);
    let mut i = 0;
    // A while: the next run begins where this one ends.
    while i < left.count {
        let e = run_end(left, i, rules);
        let r = serve(right, at, end, left, i * left.width, false, rules);
        let from = i;
        at = r.at;
        end = r.end;
        i = e;
        if is_short(from, e, at, r.used) {
            let choice = match_row(
                left,
                from * left.width,
                right,
                at,
                r.used,
                number,
                rules.terms,
            );
            put(out, m, from, choice);
        } else {
            match_run(
                left,
                m,
                from,
                e,
                right,
                at,
                r.used,
                number,
                rules.terms,
                out,
            );
        }
    }
}

// All nl left rows over all nr right rows, as one run: their choices, into an answer of m cells.
fn match_all(
    left: RowSlice<'_>,
    m: usize,
    right: RowSlice<'_>,
    number: usize,
    o: Terms,
    out: &mut [i64],
)
    requires { RunRoom (without_list o) left.width m left.values.now left.marks.now 0 left.count right.width right.values.now right.marks.now 0 right.count number out.old }
    ensures { out.new ≡ lay m 0 (map (match_in (without_list o) (number + 0) (between right.entry.width 0 right.entry.count right.entry.values.now right.entry.marks.now)) (between left.entry.width 0 left.entry.count left.entry.values.now left.entry.marks.now)) out.old }
{
    if is_short(0, left.count, 0, right.count) {
        scan_run(
            left,
            m,
            0,
            left.count,
            right,
            0,
            right.count,
            number,
            o,
            out,
        );
    } else {
        match_run(
            left,
            m,
            0,
            left.count,
            right,
            0,
            right.count,
            number,
            o,
            out,
        );
    }
}

// The choices of a frame's rows: with no by-columns all of them meet all held rows.
fn match_rows(
    left: RowSlice<'_>,
    right: RowSlice<'_>,
    number: usize,
    rules: Rules<'_>,
    m: usize,
    out: &mut [i64],
)
    requires { FrameRoom (options_of rules) left.width left.count left.values.now left.marks.now right.width right.count right.values.now right.marks.now number m out.old }
    ensures { out.new ≡ lay m 0 (match_frame (options_of rules.entry) number (rows_in right.entry) (rows_in left.entry)) out.old }
{
    if rules.terms.by == 0 {
        match_all(left, m, right, number, rules.terms, out);
    } else {
        match_groups(left, right, number, rules, m, out);
    }
}

// The answer's rows of a frame of nl rows over nr held rows, of which the first has the number `number`: into an answer of m cells, without its head words.
pub fn answer_rows(
    left: RowSlice<'_>,
    right: RowSlice<'_>,
    number: usize,
    rules: Rules<'_>,
    m: usize,
    out: &mut [i64],
)
    requires { AnswerRoom (options_of rules) left.width left.count left.values.now left.marks.now right.width right.count right.values.now right.marks.now number m out.old }
    ensures { out.new ≡ lay_cells m 0 (flat (frame_answer (options_of rules.entry) number (rows_in right.entry) (rows_in left.entry))) out.old }
{
    match_rows(left, right, number, rules, m, out);
    if answer_columns(rules.terms) == 1 {
        return;
    }
    spread_rows(left, right, number, rules.terms, m, out);
}

// The answer of a frame, whole.
pub fn match_frame(
    left: RowSlice<'_>,
    right: RowSlice<'_>,
    number: usize,
    rules: Rules<'_>,
    out: &mut [i64],
)
    requires { AnswerRoom (options_of rules) left.width left.count left.values.now left.marks.now right.width right.count right.values.now right.marks.now number (left.count * answer_columns (options_of rules)) out.old }
    ensures { out.new ≡ answered (options_of rules.entry) (frame_answer (options_of rules.entry) number (rows_in right.entry) (rows_in left.entry)) out.old }
{
    let c = answer_columns(rules.terms);
    answer_rows(left, right, number, rules, left.count * c, out);
    put_head(out, left.count, c);
}
