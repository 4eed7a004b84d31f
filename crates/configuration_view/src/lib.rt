// What a checked configuration comes to: its phases, and the buffers that a verification needs.
#![tactic(auto)]

pub mod phases;
pub mod view;
