// Lists of calls on one reader, and the law that their answers keep.
#![tactic(auto)]

pub mod calls;
pub mod replay;
#[cfg(test)]
mod tests;
