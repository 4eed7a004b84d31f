// Nothing to run: this crate holds what it is that byte lists collide under a digest (specs/).
#![tactic(auto)]
