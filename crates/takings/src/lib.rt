// Takings by performance: definitions, and the proof that the order in which sales are added does not matter. No code.
#![tactic(auto)]

// A table of so many rows was written, with this number of matched sales that have no amount.
#[derive(Clone, Copy, PartialEq, Eq, Debug)]
pub struct Taken {
    pub rows: usize,
    pub number: i64,
}
