// Whole readings tried: what stands in slots, parts and fields.
#![tactic(auto)]

#[cfg(test)]
mod tests;
