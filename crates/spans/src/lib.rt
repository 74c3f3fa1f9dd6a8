// Passes that cover a span of time: which points lie inside the bounds of each interval.
#![tactic(auto)]

pub mod pairing;
pub mod pointsearch;
pub mod spancall;

// Whether the lower and the upper bound are inclusive.
#[derive(Clone, Copy)]
pub struct Bounds {
    pub lower_in: bool,
    pub upper_in: bool,
}
