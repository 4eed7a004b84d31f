// Refusals of a sumcheck.
use thiserror::Error;

/// Why a sumcheck is refused. The phase is the number of sumchecks before it.
#[derive(Clone, Copy, PartialEq, Eq, Debug, Error)]
pub enum SumcheckError {
    /// Not as many messages as rounds.
    #[error("sumcheck {phase} has {actual} messages where {expected} are due")]
    MessageCount {
        phase: usize,
        expected: usize,
        actual: usize,
    },

    /// Not as many witnesses as are due.
    #[error("sumcheck {phase} has {actual} witnesses where {expected} are due")]
    WitnessCount {
        phase: usize,
        expected: usize,
        actual: usize,
    },

    /// The witness of a round, counted from 0 within the sumcheck, does not clear its bits.
    #[error("the witness of round {round} of sumcheck {phase} does not meet {bits} bits of work")]
    Grind {
        phase: usize,
        round: usize,
        bits: usize,
    },
}
