// Layers over texts: the cover, which hides comments and ends of lines, and the join of two texts.
#![tactic(auto)]

pub mod cover;
pub mod join;
pub mod marks;
