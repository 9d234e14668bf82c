// Scanners over any text: each looks at the text from a place on, and moves the place behind what it takes.
#![tactic(auto)]

pub mod class;
pub mod cursor;
pub mod number;
pub mod range;
pub mod scan;
pub mod token;
pub mod trial;
pub mod year;
