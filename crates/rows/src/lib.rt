// Rows as words: the frame rule, the frame view, null tests, comparing cells and rows, rows with a key.
#![tactic(auto)]

pub mod cells;
pub mod compare;
pub mod framerule;
pub mod keyed;
pub mod nulls;
pub mod ranking;
pub mod view;
