// Statements tried: what the reader answers to examples, field by field.
#![tactic(auto)]

#[cfg(test)]
mod tests;
