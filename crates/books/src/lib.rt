// Books of notices, which are sorted tables of right rows: merging two books, and which notices are in force.
#![tactic(auto)]

pub mod bookjudge;
pub mod bookmerge;
mod merge;
pub mod noticecall;
pub mod notices;

pub use merge::merge_rows;
