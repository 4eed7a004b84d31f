// What a configuration is made of: the numbers as they are given.
use parameters::folding::FoldingFactor;
use thiserror::Error;

// The type of soundness guarantee, by its number: 0, 1 and 2.
#[derive(Clone, Copy, PartialEq, Eq, Debug)]
pub enum SecurityAssumption {
    UniqueDecoding,
    JohnsonBound,
    CapacityBound,
}

// A number that names no soundness guarantee.
#[derive(Clone, Copy, PartialEq, Eq, Debug, Error)]
#[error("no soundness guarantee has the number {0}")]
pub struct UnknownSoundness(pub usize);

impl TryFrom<usize> for SecurityAssumption {
    ghost use Rattle.configuration.specs.Views.{NamesKind};

    type Error = UnknownSoundness;

    ghost try_from_gives = { NamesKind };

    fn try_from(number: usize) -> Result<Self, UnknownSoundness> {
        match number {
            0 => Ok(SecurityAssumption::UniqueDecoding),
            1 => Ok(SecurityAssumption::JohnsonBound),
            2 => Ok(SecurityAssumption::CapacityBound),
            _ => Err(UnknownSoundness(number)),
        }
    }
}

// Configuration parameters for WHIR proofs, as a checked configuration shows them.
#[derive(Clone, Copy, Debug)]
pub struct ProtocolParameters<'a> {
    // Initial logarithmic inverse rate for the first committed codeword.
    pub starting_log_inv_rate: usize,

    // Log-inverse rates for the codewords committed after each intermediate WHIR round.
    pub round_log_inv_rates: &'a [usize],

    // The folding factor strategy.
    pub folding_factor: &'a FoldingFactor,

    // The type of soundness guarantee.
    pub soundness_type: SecurityAssumption,

    // Target bits for each protocol error term, including initial claim batching.
    pub security_level: usize,

    // The number of bits required for proof-of-work (PoW).
    pub pow_bits: usize,
}

// Derived configuration for a single intermediate WHIR round.
#[derive(Clone, Copy, PartialEq, Eq, Debug)]
pub struct RoundConfig {
    // Proof-of-work difficulty (in bits) for the STIR query phase.
    pub pow_bits: usize,

    // Proof-of-work difficulty (in bits) for the folding sumcheck phase.
    pub folding_pow_bits: usize,

    // Number of STIR proximity queries to make in this round.
    pub num_queries: usize,

    // Number of out-of-domain evaluation samples.
    pub ood_samples: usize,

    // Number of multilinear variables remaining after folding in this round.
    pub num_variables: usize,

    // Number of variables folded in this round.
    pub folding_factor: usize,

    // Log-inverse rate of the codeword committed after this round.
    pub log_inv_rate: usize,

    // Size of the evaluation domain before folding in this round.
    pub domain_size: usize,

    // Base-two logarithm of the folded evaluation domain size.
    pub log_folded_domain_size: usize,
}

// Query budget of one terminal proximity test.
#[derive(Clone, Copy, PartialEq, Eq, Debug)]
pub struct TerminalBudget {
    // Number of proximity queries against the terminal codeword.
    pub num_queries: usize,

    // Proof-of-work difficulty (in bits) guarding those queries.
    pub pow_bits: usize,
}

// The numbers that a configuration is to be made of, as they are given: nothing is known of them yet.
#[derive(Drop, Debug)]
pub struct WhirNumbers {
    // Number of variables in the original multilinear polynomial.
    pub num_variables: usize,

    // Largest base-two domain dimension supported by the encoder.
    pub max_log_domain_size: usize,

    // Stable evaluation-domain identity committed by the transcript.
    pub domain_id: Vec<u8>,

    // Whether proximity queries are allocated to protocol-fixed strata.
    pub stratified_queries: bool,

    // Initial logarithmic inverse rate for the first committed codeword.
    pub starting_log_inv_rate: usize,

    // Log-inverse rates for the codewords committed after each intermediate WHIR round; empty where they follow the folds.
    pub round_log_inv_rates: Vec<usize>,

    // The folding factor strategy.
    pub folding_factor: FoldingFactor,

    // The number of the soundness guarantee.
    //
    // Kept: the number as it is given: one that names no guarantee is outside the limits, so it is refused with the other numbers and not as they are read.
    pub soundness: usize,

    // Target bits for each protocol error term.
    pub security_level: usize,

    // The budget for proof-of-work.
    pub pow_budget: usize,

    // Concrete folding factors, as they were stored.
    pub folding_schedule: Vec<usize>,

    // Per-round configuration for each intermediate STIR round.
    pub round_parameters: Vec<RoundConfig>,

    // Number of out-of-domain samples during the commitment phase.
    pub commitment_ood_samples: usize,

    // PoW bits for the initial folding sumcheck (before any STIR rounds).
    pub starting_folding_pow_bits: usize,

    // Query budget of the final proximity test against the last committed codeword.
    pub terminal: TerminalBudget,

    // Number of sumcheck rounds in the final phase.
    pub final_sumcheck_rounds: usize,

    // PoW bits for the final folding sumcheck.
    pub final_folding_pow_bits: usize,
}
