// Frames that are taken: a left frame waits behind those that wait, the rows of a right frame are held behind those that are.
ghost use Rattle.std.specs.Prelude.{◌≡◌, false};
ghost use Rattle.order.specs.options.Options.{options_of};
ghost use Rattle.callrules.specs.Judged.{EndFed, LeftHolds, LeftFed, RightHolds, RightFed};

use crate::judges::{judge_end, judge_left, judge_right};
use crate::{FedEnd, FedLeft, FedRight};
use buffer::area::{append, push};
use frames::outcomes::NodeState;
use order::options::{Rules, right_columns};
use rows::framerule::row_count;

// A left frame: where it would pass the end, those that wait move to the front first.
pub fn feed_left(
    bad: bool,
    failed: bool,
    state: NodeState,
    rules: Rules<'_>,
    start: usize,
    words: usize,
    left: &mut [i64],
    frame: &[i64],
) -> FedLeft
    requires { bad ≡ false → LeftHolds (options_of rules) start words left.old }
    ensures { LeftFed bad failed state (options_of rules.entry) start words left.old frame.now result left.new }
{
    let answer = judge_left(bad, failed, state, rules, words, left, frame);
    if answer.is_err() {
        return FedLeft {
            answer,
            start,
            words,
        };
    }
    let to = append(left, start, words, frame);
    let waiting = words + frame.len();
    FedLeft {
        answer,
        start: to,
        words: waiting,
    }
}

// A right frame: where its rows would pass the end, the held ones move to the front first.
pub fn feed_right(
    bad: bool,
    failed: bool,
    ended: bool,
    state: NodeState,
    rules: Rules<'_>,
    base: usize,
    held: usize,
    pruned: usize,
    right: &mut [i64],
    frame: &[i64],
) -> FedRight
    requires { bad ≡ false → RightHolds (options_of rules) base held pruned right.old }
    ensures { RightFed bad failed ended state (options_of rules.entry) base held pruned right.old frame.now result right.new }
{
    let answer = judge_right(bad, failed, ended, state, rules, held, pruned, right, frame);
    if answer.is_err() {
        return FedRight { answer, base, held };
    }
    let c = right_columns(rules.terms);
    let to = push(right, base, held, frame, c);
    let rows = held + row_count(frame);
    FedRight {
        answer,
        base: to,
        held: rows,
    }
}

// The end of right: right has ended where it is accepted.
pub fn feed_end(bad: bool, failed: bool, ended: bool, state: NodeState) -> FedEnd
    ensures { EndFed bad failed ended state result }
{
    let answer = judge_end(bad, failed, ended, state);
    if answer.is_err() {
        return FedEnd { answer, ended };
    }
    FedEnd {
        answer,
        ended: true,
    }
}
