// The answer of two sorted tables: that of a frame over held rows, but no run is asked whether it is sorted, and no run is passed to find its end.
ghost use Rattle.std.specs.Prelude.{◌≡◌, true, false, map, ◌+◌, ◌*◌, ◌<◌};
ghost use Rattle.frames.specs.Cells.{row_from, rows_in};
ghost use Rattle.order.specs.options.Options.{without_list, answer_columns, options_of};
ghost use Rattle.order.specs.Order.{null_group};
ghost use Rattle.tables.specs.Lay.{flat, lay_cells};
ghost use Rattle.matching.specs.Match.{match_in};
ghost use Rattle.matching.specs.Groups.{runs, by_runs, match_frame};
ghost use Rattle.matching.specs.Answer.{answered, frame_answer};
ghost use Rattle.matching.specs.Stretches.{between, lay};
ghost use Rattle.matching.specs.Loops.{RunRoom};
ghost use Rattle.matching.specs.Moves.{keys_sorted};
ghost use Rattle.matching.specs.Requires.{FrameRoom, AnswerRoom};
ghost use Rattle.matchframe.specs.sortedrows.Requires.{BothSorted};

use crate::carrying::spread_rows;
use frames::RowSlice;
use groups::serve;
use groups::sortedruns::sorted_end;
use matchrun::{is_short, scan_run, walk_run};
use order::options::{Rules, Terms, answer_columns};
use rows::keyed::null_group;
use tables::put_head;

// Left rows from..to, a run of sorted rows, each matched over right rows at..end, which are sorted by key, into an answer of m cells. Rows of no group may be in any
// order of keys: these are scanned, over no right rows. So is a short run, for which a walk is the longer way.
fn match_known(
    left: RowSlice<'_>,
    m: usize,
    from: usize,
    to: usize,
    right: RowSlice<'_>,
    at: usize,
    end: usize,
    number: usize,
    o: Terms,
    out: &mut [i64],
)
    requires { RunRoom (without_list o) left.width m left.values.now left.marks.now from to right.width right.values.now right.marks.now at end number out.old × (from < to) × (null_group (without_list o) (row_from left.width (from * left.width) left.values.now left.marks.now) ≡ false → keys_sorted (without_list o) (between left.width from to left.values.now left.marks.now) ≡ true) × (keys_sorted (without_list o) (between right.width at end right.values.now right.marks.now) ≡ true) }
    ensures { out.new ≡ lay m from (map (match_in (without_list o) (number + at) (between right.entry.width at end right.entry.values.now right.entry.marks.now)) (between left.entry.width from to left.entry.values.now left.entry.marks.now)) out.old }
{
    if is_short(from, to, at, end) {
        scan_run(left, m, from, to, right, at, end, number, o, out);
        return;
    }
    if null_group(left.marks, from * left.width, o) {
        scan_run(left, m, from, to, right, at, end, number, o, out);
    } else {
        let _moved = walk_run(left, m, from, to, right, at, end, number, o, out);
    }
}

// The runs of the left rows in order, each over the right run that has its group: their choices, into an answer of m cells.
fn match_runs(
    left: RowSlice<'_>,
    right: RowSlice<'_>,
    number: usize,
    rules: Rules<'_>,
    m: usize,
    out: &mut [i64],
)
    requires { FrameRoom (options_of rules) left.width left.count left.values.now left.marks.now right.width right.count right.values.now right.marks.now number m out.old × BothSorted (options_of rules) left.width left.count left.values.now left.marks.now right.width right.count right.values.now right.marks.now }
    ensures { out.new ≡ lay m 0 (by_runs (options_of rules.entry) number (runs (options_of rules.entry) (rows_in right.entry)) (runs (options_of rules.entry) (rows_in left.entry))) out.old }
{
    let mut at = 0;
    let mut end = sorted_end(right, at, rules);
    let mut i = 0;
    // A while: the next run begins where this one ends.
    while i < left.count {
        let e = sorted_end(left, i, rules);
        let r = serve(right, at, end, left, i * left.width, true, rules);
        match_known(left, m, i, e, right, r.at, r.used, number, rules.terms, out);
        at = r.at;
        end = r.end;
        i = e;
    }
}

// The choices of the left rows: with no by-columns all of them meet all right rows.
fn match_rows(
    left: RowSlice<'_>,
    right: RowSlice<'_>,
    number: usize,
    rules: Rules<'_>,
    m: usize,
    out: &mut [i64],
)
    requires { FrameRoom (options_of rules) left.width left.count left.values.now left.marks.now right.width right.count right.values.now right.marks.now number m out.old × BothSorted (options_of rules) left.width left.count left.values.now left.marks.now right.width right.count right.values.now right.marks.now }
    ensures { out.new ≡ lay m 0 (match_frame (options_of rules.entry) number (rows_in right.entry) (rows_in left.entry)) out.old }
{
    if rules.terms.by == 0 {
        let _moved = walk_run(
            left,
            m,
            0,
            left.count,
            right,
            0,
            right.count,
            number,
            rules.terms,
            out,
        );
    } else {
        match_runs(left, right, number, rules, m, out);
    }
}

// The answer's rows, into an answer of m cells, without its head words.
fn answer_sorted(
    left: RowSlice<'_>,
    right: RowSlice<'_>,
    number: usize,
    rules: Rules<'_>,
    m: usize,
    out: &mut [i64],
)
    requires { AnswerRoom (options_of rules) left.width left.count left.values.now left.marks.now right.width right.count right.values.now right.marks.now number m out.old × BothSorted (options_of rules) left.width left.count left.values.now left.marks.now right.width right.count right.values.now right.marks.now }
    ensures { out.new ≡ lay_cells m 0 (flat (frame_answer (options_of rules.entry) number (rows_in right.entry) (rows_in left.entry))) out.old }
{
    match_rows(left, right, number, rules, m, out);
    if answer_columns(rules.terms) == 1 {
        return;
    }
    spread_rows(left, right, number, rules.terms, m, out);
}

// The answer of nl sorted left rows over nr sorted right rows, of which the first has the number `number`, whole.
pub fn match_sorted(
    left: RowSlice<'_>,
    right: RowSlice<'_>,
    number: usize,
    rules: Rules<'_>,
    out: &mut [i64],
)
    requires { AnswerRoom (options_of rules) left.width left.count left.values.now left.marks.now right.width right.count right.values.now right.marks.now number (left.count * answer_columns (options_of rules)) out.old × BothSorted (options_of rules) left.width left.count left.values.now left.marks.now right.width right.count right.values.now right.marks.now }
    ensures { out.new ≡ answered (options_of rules.entry) (frame_answer (options_of rules.entry) number (rows_in right.entry) (rows_in left.entry)) out.old }
{
    let c = answer_columns(rules.terms);
    answer_sorted(left, right, number, rules, left.count * c, out);
    put_head(out, left.count, c);
}
