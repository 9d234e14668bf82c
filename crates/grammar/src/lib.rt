// The query grammar as data (specs/), the values that its forms give, and its laws: of rules and forms, and of readings.
#![tactic(auto)]

pub mod examples;
pub mod laws;
pub mod query;
pub mod reading;
