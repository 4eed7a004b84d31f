// Words of plain text.
#![tactic(auto)]

pub mod number;
