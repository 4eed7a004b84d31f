// What holds of every pattern and every separator.
ghost use Rattle.transcript.specs.Pattern.{Balanced};
ghost use Rattle.transcript.specs.Cutting.{OneCut};

// Every bracket of a pattern is closed, in proper nesting.
#[tactic(auto, using(crate::proofs::Cuts::balanced))]
pub fn pattern_balanced()
    ensures { Balanced }
{}

// Equal lists of pieces come of equal steps and equal instances.
#[tactic(auto, using(crate::proofs::Cuts::one_cut))]
pub fn separator_cut_in_one_way()
    ensures { OneCut }
{}
