// Two tables of subtotals side by side: which row is next, and how many rows they give together.
mod walk;

pub use walk::{count_joined, next_side};
