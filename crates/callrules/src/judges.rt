// The refusals of opening, of frames, of the end of right and of the start of a turn, in checking order. Nothing is altered here.
ghost use Rattle.std.specs.Prelude.{◌≡◌, false, ◌+◌, ◌≤◌, length};
ghost use Rattle.order.specs.options.Options.{Few, options_of};
ghost use Rattle.frames.specs.outcomes.Answers.{most_rows};
ghost use Rattle.callrules.specs.Judged.{open_answer, left_judged, end_judged, right_judged, ready_judged};

use crate::listed::lacks_code;
use frames::outcomes::{NodeState, Turn, above};
use frames::refusals::Refusal;
use order::options::{Rules, bad_options, left_columns, many_carried, right_columns};
use rows::framerule::{is_frame, row_count};
use rows::ranking::bad_ranks;

// The greatest number of right rows.
const MOST_ROWS: usize = 9223372036854775807;

// Opening: refused for its options, for the columns that they carry or for their list of ranks, or accepted.
pub fn judge_open(rules: Rules<'_>) -> Result<(), Refusal>
    requires { (64 ≤ length rules.codes.now) × (64 ≤ length rules.rising.now) }
    ensures { result ≡ open_answer (options_of rules.entry) }
{
    if bad_options(rules.terms) {
        return Err(Refusal::BadOptions);
    }
    if many_carried(rules.terms) {
        return Err(Refusal::TooManyCarried);
    }
    if bad_ranks(
        rules.terms.by,
        rules.terms.given,
        rules.terms.column,
        rules.terms.count,
        rules.codes,
        rules.rising,
    ) {
        return Err(Refusal::BadRanks);
    }
    Ok(())
}

// A left frame, with so many words waiting.
pub fn judge_left(
    bad: bool,
    failed: bool,
    state: NodeState,
    rules: Rules<'_>,
    words: usize,
    left: &[i64],
    frame: &[i64],
) -> Result<(), Refusal>
    requires { bad ≡ false → Few (options_of rules) }
    ensures { result ≡ left_judged bad failed state (options_of rules.entry) words left.now frame.now }
{
    if bad {
        return Err(Refusal::BadJoin);
    }
    if failed {
        return Err(Refusal::Failed);
    }
    if !state.is_running() {
        return Err(Refusal::Closed);
    }
    let c = left_columns(rules.terms);
    if !is_frame(frame, c) {
        return Err(Refusal::BadFrame);
    }
    if lacks_code(frame, c, rules) {
        return Err(Refusal::UnknownCode);
    }
    if above(words, frame.len(), left.len()) {
        return Err(Refusal::NoRoom);
    }
    Ok(())
}

// The end of right.
pub fn judge_end(bad: bool, failed: bool, ended: bool, state: NodeState) -> Result<(), Refusal>
    ensures { result ≡ end_judged bad failed ended state }
{
    if bad {
        return Err(Refusal::BadJoin);
    }
    if failed {
        return Err(Refusal::Failed);
    }
    if ended {
        return Err(Refusal::Closed);
    }
    if state.is_done() {
        return Err(Refusal::Closed);
    }
    Ok(())
}

// A right frame: it is refused where the end of right is, and then for its words, for room and for its rows' numbers.
pub fn judge_right(
    bad: bool,
    failed: bool,
    ended: bool,
    state: NodeState,
    rules: Rules<'_>,
    held: usize,
    pruned: usize,
    right: &[i64],
    frame: &[i64],
) -> Result<(), Refusal>
    requires { bad ≡ false → Few (options_of rules) × (rules.terms.carried ≤ 8) × (pruned + held ≤ most_rows) }
    ensures { result ≡ right_judged bad failed ended state (options_of rules.entry) held pruned right.now frame.now }
{
    judge_end(bad, failed, ended, state)?;
    let c = right_columns(rules.terms);
    if !is_frame(frame, c) {
        return Err(Refusal::BadFrame);
    }
    if lacks_code(frame, c, rules) {
        return Err(Refusal::UnknownCode);
    }
    let n = row_count(frame);
    if above(held, n, right.len() / (2 * c)) {
        return Err(Refusal::NoRoom);
    }
    if above(pruned + held, n, MOST_ROWS) {
        return Err(Refusal::UsedUp);
    }
    Ok(())
}

// Whether a turn may look at the front of the queue, with so many words waiting: refused, Idle, or it goes on.
#[tactic(auto, unfolding(crate::specs::Judged::ready_judged))]
pub fn judge_ready(
    bad: bool,
    failed: bool,
    state: NodeState,
    words: usize,
    sequence: u64,
) -> Result<Turn, Refusal>
    ensures { result ≡ ready_judged bad failed state words sequence }
{
    if bad {
        return Err(Refusal::BadJoin);
    }
    if failed {
        return Err(Refusal::Failed);
    }
    if state.is_done() {
        return Err(Refusal::Closed);
    }
    if words == 0 {
        return Ok(Turn::Idle);
    }
    Ok(Turn::Wrote(sequence))
}
