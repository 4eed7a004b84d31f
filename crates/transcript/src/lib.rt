// The transcript of a WHIR run: its shape, the steps, the separator and the run itself.
#![tactic(auto)]

pub mod delegated;
pub mod depths;
pub mod failure;
pub mod interaction;
pub mod laws;
pub mod opening;
pub mod pattern;
pub mod piece;
pub mod positions;
pub mod query;
pub mod run;
pub mod separator;
pub mod shape;
pub mod sites;
#[cfg(test)]
mod tests;
