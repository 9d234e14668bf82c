// Entry points on numbers and slices, as the crate exports_c hands them to C.
#![tactic(auto)]

mod any;
pub mod memory;
pub mod statement;
