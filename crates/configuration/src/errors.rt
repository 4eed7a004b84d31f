// Why a configuration was not made.
ghost use Rattle.std.specs.Prelude.{◌≡◌};
ghost use Rattle.configuration.specs.Faults.{of_schedule};
ghost use Rattle.configuration.specs.declared.errors.WhirConfigError.TheVariants.{Folding};

use parameters::errors::{FoldingFactorError, ScheduleError};
use thiserror::Error;

// A refusal is read out as its number, its name and its values.
#[derive(Clone, Copy, PartialEq, Eq, Debug, Error)]
pub enum WhirConfigError {
    // A number is outside its limits, a factor is above 10, or a phase would open more than 1,024 rows.
    #[error("1 Limit")]
    Limit,

    // The folding factor is incompatible with the polynomial size.
    #[error("2 Folding {0}")]
    Folding(FoldingFactorError),

    // The numbers do not belong together.
    #[error("3 Inconsistent")]
    Inconsistent,

    // There was no memory for the schedule.
    #[error("out of memory")]
    OutOfMemory,
}

// Kept: the impl is public and says what it makes; a derived one, which was tried, says nothing of that, and the clause of the next one was not proved.
impl From<FoldingFactorError> for WhirConfigError {
    ghost from_gives = { λ e r. r ≡ Folding e };

    fn from(e: FoldingFactorError) -> WhirConfigError {
        WhirConfigError::Folding(e)
    }
}

impl From<ScheduleError> for WhirConfigError {
    ghost from_gives = { λ e r. r ≡ of_schedule e };

    fn from(e: ScheduleError) -> WhirConfigError {
        match e {
            ScheduleError::Folding(fault) => fault.into(),
            ScheduleError::OutOfMemory => WhirConfigError::OutOfMemory,
        }
    }
}
