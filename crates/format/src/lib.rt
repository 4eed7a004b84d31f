// Reading the plain-text case format: so far the lines of a configuration, and the two numbers beside it that a separator shows.
#![tactic(auto)]

pub mod cursor;
pub mod errors;
pub mod keys;
pub mod lines;
pub mod numbers;
pub mod parts;
pub mod reading;
pub mod run;
#[cfg(test)]
mod tests;
