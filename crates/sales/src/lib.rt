// Adding sales to a table of takings: finding the group, counting, checking limits, writing, and the call.
#![tactic(auto)]

pub mod addcall;
pub mod addrows;
pub mod saleadd;
pub mod salegroup;
pub mod salegroups;
pub mod salegrow;
pub mod saleinsert;
pub mod salekind;
pub mod saleorder;
pub mod salepass;
pub mod saleplace;
pub mod saleweigh;
pub mod salewrite;
