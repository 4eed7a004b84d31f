// Checked configurations of a WHIR run.
#![tactic(auto)]

pub mod checks;
pub mod errors;
pub mod making;
pub mod phases;
pub mod positions;
pub mod walk;
pub mod whir;
pub mod whir_parameters;
