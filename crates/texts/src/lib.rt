// Texts: lists of at most 16,384 cells, each a byte or bad, behind two questions.
#![tactic(auto)]

pub mod cell;
pub mod code;
pub mod space;
pub mod store;
pub mod text;
pub mod trim;
