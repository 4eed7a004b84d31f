// The faults of a folding strategy, and of working its schedule out.
ghost use Rattle.std.specs.Prelude.{◌≡◌};
ghost use Rattle.parameters.specs.declared.errors.ScheduleError.TheVariants.{Folding, OutOfMemory};

use std::alloc::{AllocError, AllocFailed};
use thiserror::Error;

// Errors that can occur when validating a folding factor, read out as the name and the values.
#[derive(Clone, Copy, PartialEq, Eq, Debug, Error)]
pub enum FoldingFactorError {
    // The folding factor is larger than the number of variables.
    #[error("TooLarge {0} {1}")]
    TooLarge(usize, usize),

    // The folding factor cannot be zero.
    #[error("ZeroFactor")]
    ZeroFactor,

    // The explicit per-round folding factors fold too few variables to reach the direct-send threshold.
    #[error("InsufficientFolding {num_variables} {remaining} {threshold}")]
    InsufficientFolding {
        num_variables: usize,
        remaining: usize,
        threshold: usize,
    },

    // The explicit per-round schedule contains no folding factors.
    #[error("EmptySchedule")]
    EmptySchedule,
}

// Why a schedule was not made: a fault of the strategy, or want of memory for the list.
#[derive(Clone, Copy, PartialEq, Eq, Debug, Error)]
pub enum ScheduleError {
    #[error(transparent)]
    Folding(FoldingFactorError),
    #[error("out of memory")]
    OutOfMemory,
}

// Kept: the impl is public and says what it makes; a derived one, which was tried, says nothing of that, and the refusals of
// `compute_folding_schedule` were not proved.
impl From<FoldingFactorError> for ScheduleError {
    ghost from_gives = { λ e r. r ≡ Folding e };

    fn from(e: FoldingFactorError) -> ScheduleError {
        ScheduleError::Folding(e)
    }
}

// Kept: want of memory comes to a caller's `?` as either of two errors. Both impls are public, and each says what it makes; `#[from(alloc)]` of the
// derive writes both, and says of neither.
impl From<AllocError> for ScheduleError {
    ghost from_gives = { λ _ r. r ≡ OutOfMemory };

    fn from(_e: AllocError) -> ScheduleError {
        ScheduleError::OutOfMemory
    }
}

impl<T: Drop> From<AllocFailed<T>> for ScheduleError {
    ghost from_gives = { λ _ r. r ≡ OutOfMemory };

    fn from(_e: AllocFailed<T>) -> ScheduleError {
        ScheduleError::OutOfMemory
    }
}
