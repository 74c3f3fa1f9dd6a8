// The calls for C over tables and answer frames, in numbers: merge, standing, spans, plan, cut, join of cut tables, takings, readers.
#![tactic(auto)]

pub mod bookhost;
pub mod cuthost;
pub mod cutjoinhost;
pub mod planhost;
pub mod readhost;
pub mod spanhost;
pub mod takehost;
