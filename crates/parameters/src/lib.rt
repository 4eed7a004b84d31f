// The numbers of a WHIR run: how the variables of a table are folded, phase by phase.
#![tactic(auto)]

pub mod errors;
pub mod folding;
