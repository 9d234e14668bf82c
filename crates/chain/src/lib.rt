// The chain store: a memory of numbered records, each with the number of the next, read as a text.
#![tactic(auto)]

mod damage;
mod pieces;
mod record;
pub mod store;
mod walk;
