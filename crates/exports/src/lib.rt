// A statement's queries for C: records of numbers in words that the caller lends.
#![tactic(auto)]

pub mod layout;
pub mod outcome;
pub mod put;
pub mod read;
