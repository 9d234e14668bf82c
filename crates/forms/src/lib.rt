// The query forms of shares, features, browsers and runtimes.
#![tactic(auto)]

pub mod browser;
pub mod share;
pub mod supports;
