// The right area: where the held rows stand, and what a push writes.
mod held;

pub use held::{append, held_marks, held_values, push};
