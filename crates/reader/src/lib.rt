// The reader: what it refuses, the checks that come at start, and the steps.
#![tactic(auto)]

pub mod reader;
pub mod refusal;
pub mod start;
pub mod step;
pub mod utf8;
