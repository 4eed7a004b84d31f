//! Why a verification is refused.
#![tactic(auto)]

ghost use Rattle.std.specs.Prelude.{◌≡◌};
ghost use Rattle.errors.specs.declared.VerifierError.TheVariants.{Sumcheck};
ghost use Rattle.errors.specs.Told.{of_transcript};

use sumcheck::errors::SumcheckError;
use thiserror::Error;
use transcript::failure::TranscriptFailure;

/// What is wrong with the rows that a proof opens.
#[derive(Clone, Copy, PartialEq, Eq, Debug)]
pub enum OpeningFault {
    /// They are not of the base in the first phase, or not of the extension in a later one.
    Kind,

    /// Base rows are not right.
    Base,

    /// Extension rows are not right.
    Extension,
}

/// Errors during WHIR proof verification. A refusal is read out as its number and its values.
#[derive(Clone, Copy, PartialEq, Eq, Debug, Error)]
pub enum VerifierError<E> {
    /// More than 1,024 claims, or a claim whose point has another number of coordinates or passes their list.
    #[error("1 Limit")]
    Limit,

    /// A lent buffer is too short.
    #[error("5 BufferTooSmall")]
    BufferTooSmall,

    /// The proof has another number of rounds.
    #[error("10 RoundCountMismatch {expected} {actual}")]
    RoundCountMismatch {
        expected: usize,
        actual: usize,
    },

    /// A witness before queries is not 0 where nothing is ground.
    #[error("11 NonCanonicalPowWitness {round}")]
    NonCanonicalPowWitness {
        round: usize,
    },

    /// A sumcheck is refused.
    #[error("12 Sumcheck: {0}")]
    Sumcheck(SumcheckError),

    /// A round has no commitment.
    #[error("13 MissingRoundCommitment {round}")]
    MissingRoundCommitment {
        round: usize,
    },

    /// A round has another number of out-of-domain answers than samples.
    #[error("14 RoundOodAnswerCountMismatch {round} {expected} {actual}")]
    RoundOodAnswerCountMismatch {
        round: usize,
        expected: usize,
        actual: usize,
    },

    /// The witness before the queries of a round does not clear its bits.
    #[error("15 InvalidPowWitness {round} {bits}")]
    InvalidPowWitness {
        round: usize,
        bits: usize,
    },

    /// The rows of a phase are not right against its commitment.
    #[error("16 MerkleProofInvalid {phase} {position}")]
    MerkleProofInvalid {
        phase: usize,
        position: usize,
        reason: OpeningFault,
    },

    /// Another number of rows than of positions.
    #[error("17 StirQueryCountMismatch {round} {expected} {actual}")]
    StirQueryCountMismatch {
        round: usize,
        expected: usize,
        actual: usize,
    },

    /// The final polynomial is missing.
    #[error("18 MissingFinalPoly")]
    MissingFinalPoly,

    /// The final polynomial has another number of values.
    #[error("19 FinalPolyLengthMismatch {expected} {actual}")]
    FinalPolyLengthMismatch {
        expected: usize,
        actual: usize,
    },

    /// A row of the last phase does not agree with the final polynomial.
    #[error("20 StirChallengeFailed {challenge_id}")]
    StirChallengeFailed {
        challenge_id: usize,
    },

    /// The claim carried to the end is not weight times value.
    #[error("21 SumcheckFailed {round}")]
    SumcheckFailed {
        round: usize,
        expected: E,
        actual: E,
    },
}

impl<E> From<SumcheckError> for VerifierError<E> {
    ghost from_gives = { λ e r. r ≡ Sumcheck e };

    fn from(e: SumcheckError) -> VerifierError<E> {
        VerifierError::Sumcheck(e)
    }
}

impl<E> From<TranscriptFailure> for VerifierError<E> {
    ghost from_gives = { λ e r. r ≡ of_transcript e };

    fn from(failure: TranscriptFailure) -> VerifierError<E> {
        match failure {
            TranscriptFailure::PowWitness { round, bits } => {
                VerifierError::InvalidPowWitness { round, bits }
            }
            TranscriptFailure::NonCanonicalPowWitness { round } => {
                VerifierError::NonCanonicalPowWitness { round }
            }
            TranscriptFailure::FinalPolyLength { expected, got } => {
                VerifierError::FinalPolyLengthMismatch {
                    expected,
                    actual: got,
                }
            }
        }
    }
}
