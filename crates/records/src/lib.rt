// A separator and a refusal as numbers, each in a fixed layout. A query's layout is that of `exports::layout`.
#![tactic(auto)]

pub mod refusal;
pub mod separator;
