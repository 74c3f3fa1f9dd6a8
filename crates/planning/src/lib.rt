// The lengths of the areas that a join needs, computed from two tables and the heights of their frames.
#![tactic(auto)]

pub mod fullplan;
pub mod heights;
pub mod plancall;
pub mod planjudge;
pub mod planwalk;

// The right rows that have to find room at once; the turn calls up to the last frame written, those that want right rows among them; and the right frames taken.
#[derive(Clone, Copy, PartialEq, Eq, Debug)]
pub struct Figures {
    pub rows: usize,
    pub turns: usize,
    pub rights: usize,
}
