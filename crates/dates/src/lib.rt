// The query forms that count, and those with years and dates.
#![tactic(auto)]

pub mod baseline;
pub mod last;
pub mod since;
