// Why a proof is refused within its transcript.
use thiserror::Error;

// A transcript step the proof failed to satisfy.
#[derive(Clone, Copy, PartialEq, Eq, Debug, Error)]
pub enum TranscriptFailure {
    // A grinding witness did not meet the difficulty its step requires.
    #[error("the witness of round {round} does not meet {bits} bits of work")]
    PowWitness { round: usize, bits: usize },

    // A grinding witness is not the value a zero difficulty admits.
    #[error("the witness of round {round} is not 0, and no work is asked for")]
    NonCanonicalPowWitness { round: usize },

    // The final polynomial carries a value count the run never described.
    #[error("the final polynomial has {got} values where {expected} are described")]
    FinalPolyLength { expected: usize, got: usize },
}

// A slice has no room for the positions of a phase.
#[derive(Clone, Copy, PartialEq, Eq, Debug, Error)]
#[error("the slice has no room for the positions")]
pub struct NoRoom;
