// The join as numbers for C and back: version, codes, options, joins, answers.
#![tactic(auto)]

pub mod codes;
pub mod convert;
pub mod hostoptions;
pub mod hostpart;
pub mod results;
pub mod version;
