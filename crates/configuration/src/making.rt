// Making a checked configuration.
ghost use Rattle.configuration.specs.Numbers.{numbers_of};
ghost use Rattle.configuration.specs.Verdicts.{fault_of_phases, ConfigurationsPhased};
ghost use Rattle.configuration.specs.Faults.{said, Answers, Keeps, Tells};

use crate::checks::Planned;
use crate::errors::WhirConfigError;
use crate::whir::WhirConfig;
use crate::whir_parameters::WhirNumbers;
use std::alloc::Global;

impl Planned<'_> {
    // Consistency with the schedule, then the limits on factors and rows.
    fn check(&self) -> Result<(), WhirConfigError>
        ensures { Tells result (fault_of_phases (numbers_of self.now.numbers.now) self.now.schedule.now) }
    {
        if !self.is_consistent() {
            return Err(WhirConfigError::Inconsistent);
        }
        if !self.openings_within() {
            return Err(WhirConfigError::Limit);
        }
        Ok(())
    }
}

impl WhirConfig {
    // The configuration of the numbers, or their first fault: limits, the strategy, consistency, limits on factors and rows.
    pub fn new(heap: Global, numbers: WhirNumbers) -> Result<WhirConfig, WhirConfigError>
        ensures answers { Answers (said result) (numbers_of numbers) }
        ensures keeps { Keeps numbers result }
    {
        if !numbers.within_limits() {
            return Err(WhirConfigError::Limit);
        }
        let schedule = numbers
            .folding_factor
            .compute_folding_schedule(heap, numbers.num_variables)?;
        let planned = Planned {
            numbers: &numbers,
            schedule: schedule.as_slice(),
        };
        planned.check()?;
        Ok(WhirConfig { numbers })
    }
}

// Every configuration without a fault has its phases in order.
pub fn configurations_phased()
    ensures { ConfigurationsPhased }
{}
