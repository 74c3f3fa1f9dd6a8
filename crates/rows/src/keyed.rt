// Keyed rows: nulls by their marks, rows with a key, a row that is remembered.
mod copy;
mod scan;

pub use copy::{copy_row, no_row};
pub use scan::{first_keyed, last_keyed, null_at, null_group};
