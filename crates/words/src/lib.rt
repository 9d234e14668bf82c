// Readings of any text, written as numbers into slices that the caller lends.
#![tactic(auto)]

pub mod copy;
pub mod field;
pub mod fill;
pub mod put;
pub mod steps;
