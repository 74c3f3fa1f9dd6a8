// Tables cut at boundary groups: the places of the cuts, and the call that joins cut tables.
#![tactic(auto)]

pub mod boundaries;
pub mod cutcall;
pub mod cutjoin;
pub mod cutjudge;
pub mod cutroom;
pub mod cutrows;
