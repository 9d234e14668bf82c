// The entry points of the static library, by their C names. include/statement.h declares them.
// Each hands on to the crate that has its promise, since a static library can't be another crate's library too.
#![tactic(auto)]

pub mod memory;
pub mod statement;
