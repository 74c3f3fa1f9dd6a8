// The notices of a sorted book: of each row whether it stands, and which row it names.
mod list;
mod row;

pub use list::put_notices;
