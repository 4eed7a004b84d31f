// The key words that lines begin with.
ghost use Rattle.std.specs.Prelude.{◌≡◌};
ghost use Rattle.format.specs.Words.{letters};

use std::fmt;

#[derive(Clone, Copy, PartialEq, Eq, Debug)]
pub enum Key {
    Degree,
    NumVariables,
    Capacity,
    DomainId,
    Stratified,
    StartingLogInvRate,
    RoundLogInvRates,
    FoldingFactor,
    Soundness,
    SecurityLevel,
    PowBudget,
    Schedule,
    Rounds,
    Round,
    CommitmentOodSamples,
    StartingFoldingPowBits,
    Terminal,
    FinalSumcheckRounds,
    FinalFoldingPowBits,
    NumOpeningClaims,
}

impl Key {
    // The word as it is written.
    pub fn word(self) -> &'static str
        ensures { result.now ≡ letters self }
    {
        match self {
            Key::Degree => "degree",
            Key::NumVariables => "num_variables",
            Key::Capacity => "capacity",
            Key::DomainId => "domain_id",
            Key::Stratified => "stratified",
            Key::StartingLogInvRate => "starting_log_inv_rate",
            Key::RoundLogInvRates => "round_log_inv_rates",
            Key::FoldingFactor => "folding_factor",
            Key::Soundness => "soundness",
            Key::SecurityLevel => "security_level",
            Key::PowBudget => "pow_budget",
            Key::Schedule => "schedule",
            Key::Rounds => "rounds",
            Key::Round => "round",
            Key::CommitmentOodSamples => "commitment_ood_samples",
            Key::StartingFoldingPowBits => "starting_folding_pow_bits",
            Key::Terminal => "terminal",
            Key::FinalSumcheckRounds => "final_sumcheck_rounds",
            Key::FinalFoldingPowBits => "final_folding_pow_bits",
            Key::NumOpeningClaims => "num_opening_claims",
        }
    }
}

impl fmt::Display for Key {
    fn fmt<W: fmt::Write>(&self, f: &mut fmt::Formatter<W>) -> fmt::Result {
        write!(f, "{}", self.word())
    }
}
