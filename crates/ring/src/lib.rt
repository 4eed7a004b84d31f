// Nothing to run: this crate holds what a commutative ring is (specs/) and a solver for its equations (proofs/).
#![tactic(auto)]
