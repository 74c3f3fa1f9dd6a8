// A turn from its first test on: whether it may look at the queue, the frame at the front, and the turn over it.
ghost use Rattle.std.specs.Prelude.{◌≡◌, false};
ghost use Rattle.order.specs.options.Options.{options_of};
ghost use Rattle.node.specs.turnfront.Turns.{FrameIn};
ghost use Rattle.node.specs.turncall.Queue.{QueueIn, QueueTurned, ListedTurned};

use crate::turnfront::{TurnedPart, turn_frame};
use crate::turnparts::Part;
use callrules::judges::judge_ready;
use callrules::listed::lacks_code;
use frames::outcomes::{NodeState, Turn, goes_on};
use frames::refusals::Refusal;
use order::options::{Rules, left_columns};
use rows::framerule::front_words;

// What a turn that does not write hands back.
fn unturned(answer: Result<Turn, Refusal>, j: Part) -> TurnedPart
    ensures { result ≡ record { answer = answer; part = j } }
{
    TurnedPart { answer, part: j }
}

// A turn over the frame at the front, unless it has a value that the list of ranks lacks.
fn turn_listed(
    j: Part,
    rules: Rules<'_>,
    frame: &[i64],
    right: &[i64],
    out: &mut [i64],
) -> TurnedPart
    requires { FrameIn (options_of rules) j frame.now right.now }
    ensures { ListedTurned (options_of rules.entry) j frame.now right.now out.old result out.new }
{
    let c = left_columns(rules.terms);
    if lacks_code(frame, c, rules) {
        return unturned(Err(Refusal::UnknownCode), j);
    }
    turn_frame(j, rules, frame, right, out)
}

// A turn of the join in this state: refused, Idle, or over the frame at the front of the queue. `bad` says whether the join meets refusal 2.
pub fn turn_queue(
    bad: bool,
    state: NodeState,
    j: Part,
    rules: Rules<'_>,
    left: &[i64],
    right: &[i64],
    out: &mut [i64],
) -> TurnedPart
    requires { bad ≡ false → QueueIn (options_of rules) j left.now right.now }
    ensures { QueueTurned (options_of rules.entry) bad state j left.now right.now out.old result out.new }
{
    let starts = judge_ready(bad, j.failed, state, j.queue_words, j.sequence);
    if !goes_on(starts) {
        return unturned(starts, j);
    }
    let c = left_columns(rules.terms);
    let start = j.queue_start;
    let end = start + j.queue_words;
    let front = front_words(&left[start..end], c);
    let Some(k) = front else {
        return unturned(Err(Refusal::BadFrame), j);
    };
    let e = start + k;
    turn_listed(j, rules, &left[start..e], right, out)
}
