// The join in another state, and the part of it that a turn works on.
ghost use Rattle.std.specs.Prelude.{◌≡◌};
ghost use Rattle.node.specs.State.{state_at};
ghost use Rattle.node.specs.TurnPart.{part_of, join_with};

use crate::turnfront::TurnedPart;
use crate::turnparts::Part;
use crate::{Join, TurnedJoin};
use frames::outcomes::NodeState;

// The join in another state.
pub(crate) fn at_state(j: Join, state: NodeState) -> Join
    ensures { result ≡ state_at j state }
{
    Join { state, ..j }
}

// The join without its options and its state.
pub(crate) fn part_of(j: Join) -> Part
    ensures { result ≡ part_of j }
{
    Part {
        base: j.base,
        held: j.held,
        pruned: j.pruned,
        queue_start: j.queue_start,
        queue_words: j.queue_words,
        right_ended: j.right_ended,
        failed: j.failed,
        sequence: j.sequence,
        last_left: j.last_left,
        last_right: j.last_right,
    }
}

// What a turn hands back, of a join and the rest of it after the turn.
pub(crate) fn turned(j: Join, t: TurnedPart) -> TurnedJoin
    ensures { result ≡ record { answer = t.answer; join = join_with j t.part } }
{
    let p = t.part;
    TurnedJoin {
        answer: t.answer,
        join: Join {
            options: j.options,
            base: p.base,
            held: p.held,
            pruned: p.pruned,
            queue_start: p.queue_start,
            queue_words: p.queue_words,
            state: j.state,
            right_ended: p.right_ended,
            failed: p.failed,
            sequence: p.sequence,
            last_left: p.last_left,
            last_right: p.last_right,
        },
    }
}
