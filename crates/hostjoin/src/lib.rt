// The calls for C on a join, in numbers: open, left, right, end, ports, turn, run, move.
#![tactic(auto)]

pub mod hostfeed;
pub mod hostmove;
pub mod hostturn;
