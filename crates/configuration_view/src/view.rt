// Working out the phases and the buffers of a checked configuration.
ghost use Rattle.std.specs.Prelude.{◌≡◌, ◌+◌, ◌-◌, max, IfOk, fold as folded};
ghost use Rattle.configuration.specs.Numbers.{numbers_of};
ghost use Rattle.configuration_view.specs.Shown.{phase_from, phases_of, buffers_of, Shows};

use crate::phases::{Buffers, Phase, View};
use configuration::positions::Positions;
use configuration::walk::PhaseNumbers;
use configuration::whir::WhirConfig;
use std::alloc::{AllocError, Global};

// A phase as it is shown, from what is read of it and its positions.
fn phase_from(phase: PhaseNumbers, positions: Positions) -> Phase
    requires log { positions.log ≡ phase.variables + phase.rate - phase.factor }
    requires queries { positions.queries ≡ phase.queries }
    ensures { result ≡ phase_from phase.variables phase.rate phase.factor phase.queries }
{
    Phase {
        variables: phase.variables,
        rate: phase.rate,
        log_positions: positions.log,
        rows: positions.rows(),
        draws: positions.draws().unwrap_or(0),
    }
}

// The phases of a configuration.
fn phases_of(heap: Global, config: &WhirConfig) -> Result<Vec<Phase>, AllocError>
    ensures { IfOk result (λ v. v.items ≡ phases_of (numbers_of config.now.numbers)) }
{
    config
        .phases()
        .map(|phase| phase_from(phase, phase.positions().unwrap()))
        .collect(heap)
}

// The largest factor of a schedule.
fn largest_of(factors: &[usize]) -> usize
    ensures { result ≡ folded max 0 factors.now }
{
    factors.iter().copied().fold(0, usize::max)
}

/// The buffers that a verification under a configuration needs.
pub fn buffers_needed(config: &WhirConfig) -> Buffers
    ensures { result ≡ buffers_of (numbers_of config.now.numbers) }
{
    let rounds = config.numbers.round_parameters.as_slice();
    let samples: usize = rounds.iter().map(|round| round.ood_samples).sum();
    let positions: usize = config
        .phases()
        .map(|phase| phase.positions().unwrap().rows())
        .sum();
    Buffers {
        point: config.numbers.num_variables,
        pair: 2,
        fold: 1 << largest_of(config.numbers.folding_schedule.as_slice()),
        notes: samples + 2 * rounds.len(),
        positions,
    }
}

// The phases of a configuration and the buffers that it needs.
pub fn view_of(heap: Global, config: &WhirConfig) -> Result<View, AllocError>
    ensures { IfOk result (Shows (numbers_of config.now.numbers)) }
{
    let phases = phases_of(heap, config)?;
    let buffers = buffers_needed(config);
    Ok(View { phases, buffers })
}
