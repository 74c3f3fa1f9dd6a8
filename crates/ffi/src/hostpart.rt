// The part of a join in numbers that a turn works on: read, and put back into the numbers beside the turn's answer.
ghost use Rattle.std.specs.Prelude.{◌≡◌};
ghost use Rattle.node.specs.TurnPart.{part_of};
ghost use Rattle.ffi.specs.convert.Convert.{join_of};
ghost use Rattle.ffi.specs.declared.convert.HostJoin.{HostJoin};
ghost use Rattle.ffi.specs.results.Results.{turned_host};
ghost use Rattle.ffi.specs.hostpart.Parts.{part_in};

use crate::codes::{flag_code, flag_of};
use crate::convert::{HostJoin, row_of};
use frames::outcomes::Turn;
use frames::refusals::Refusal;
use node::turnparts::Part;

// The part that the numbers tell: the join without its options and its state.
pub fn part_from(h: HostJoin) -> Part
    ensures { result ≡ part_of (join_of h) }
{
    Part {
        base: h.base,
        held: h.held,
        pruned: h.pruned,
        queue_start: h.queue_start,
        queue_words: h.queue_words,
        right_ended: flag_of(h.right_ended),
        failed: flag_of(h.failed),
        sequence: h.sequence,
        last_left: row_of(h.last_left),
        last_right: row_of(h.last_right),
    }
}

// The number of a turn's answer.
pub fn answer_code(a: Result<Turn, Refusal>) -> u64
    ensures { (h : HostJoin) → result ≡ (turned_host a h).answer }
{
    match a {
        Ok(Turn::Wrote(_)) => 0,
        Ok(Turn::WantsRight) => 1,
        Ok(Turn::Idle) => 2,
        Err(_) => 3,
    }
}

// The number of its refusal, 0 if there is none.
pub fn answer_refusal(a: Result<Turn, Refusal>) -> u64
    ensures { (h : HostJoin) → result ≡ (turned_host a h).refusal }
{
    match a {
        Ok(_) => 0,
        Err(n) => n.into(),
    }
}

// The sequence that it wrote, else 0.
pub fn answer_sequence(a: Result<Turn, Refusal>) -> u64
    ensures { (h : HostJoin) → result ≡ (turned_host a h).sequence }
{
    match a {
        Ok(Turn::Wrote(s)) => s,
        _ => 0,
    }
}

// The numbers with the part that a turn leaves.
pub fn part_in(mut h: HostJoin, p: Part) -> HostJoin
    ensures { result ≡ part_in h p }
{
    h.base = p.base;
    h.held = p.held;
    h.pruned = p.pruned;
    h.queue_start = p.queue_start;
    h.queue_words = p.queue_words;
    h.right_ended = flag_code(p.right_ended);
    h.failed = flag_code(p.failed);
    h.sequence = p.sequence;
    h.last_left = p.last_left.into();
    h.last_right = p.last_right.into();
    h
}
