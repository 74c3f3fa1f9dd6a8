// Rules of the calls over the numbers of a join: validity, refusals in checking order, accepted frames, ports. `bad` says whether the join meets refusal 2.
#![tactic(auto)]

pub mod consistency;
pub mod intake;
pub mod judges;
pub mod listed;
pub mod ports;

use frames::refusals::Refusal;

// The answers below stand beside the numbers and not in place of them: a refused call hands its numbers back too.

// After a left frame: the answer, where the queue starts and how many words wait.
#[derive(Clone, Copy)]
pub struct FedLeft {
    pub answer: Result<(), Refusal>,
    pub start: usize,
    pub words: usize,
}

// After the end of right: the answer, and whether right has ended.
#[derive(Clone, Copy)]
pub struct FedEnd {
    pub answer: Result<(), Refusal>,
    pub ended: bool,
}

// After a right frame: the answer, where the held rows start and how many are held.
#[derive(Clone, Copy)]
pub struct FedRight {
    pub answer: Result<(), Refusal>,
    pub base: usize,
    pub held: usize,
}
