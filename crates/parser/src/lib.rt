// The parser of browser queries, over any text: the source's functions under their names.
#![tactic(auto)]

pub mod atom;
pub mod query;
pub mod unknown;
