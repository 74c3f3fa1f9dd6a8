// The split of a prune, and the order at it.
mod split;

pub use split::{bad_split, out_of_order, remember_found};
