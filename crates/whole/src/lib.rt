// A whole reading in the caller's slots, one query by its number, and a part of the caller's bytes.
#![tactic(auto)]

pub mod list;
pub mod nth;
pub mod part;
pub mod reading;
pub mod refusal;
pub mod walk;
pub mod whole;
