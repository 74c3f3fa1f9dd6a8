// Tables of takings by performance: what is refused of them, and the call that joins two.
#![tactic(auto)]

pub mod joincall;
pub mod subtables;
pub mod takejoin;
pub mod takejudge;
pub mod takerows;
pub mod takewords;
pub mod takewrite;
