// The numbers of a phase that a verification uses.
ghost use Rattle.std.specs.Prelude.{◌≡◌, ◌≤◌, suc, min, length};
ghost use Rattle.configuration.specs.Numbers.{numbers_of};
ghost use Rattle.configuration.specs.Phases.{factor, left, log_positions_of};

use configuration::whir::WhirConfig;

/// A phase: the variables that it binds, the log of the number of its positions, and the variables that it leaves.
#[derive(Clone, Copy, PartialEq, Eq, Debug)]
pub struct PhaseShape {
    pub fold: usize,
    pub log: usize,
    pub vars: usize,
}

/// The numbers of a phase by its place; one past the last is the last.
pub fn phase_shape(config: &WhirConfig, phase: usize) -> PhaseShape
    ensures fold { result.fold ≡ factor (numbers_of config.now.numbers).stored (min phase (length config.now.numbers.round_parameters.items)) }
    ensures log { result.log ≡ log_positions_of (numbers_of config.now.numbers) (numbers_of config.now.numbers).stored (min phase (length config.now.numbers.round_parameters.items)) }
    ensures vars { result.vars ≡ left (numbers_of config.now.numbers) (numbers_of config.now.numbers).stored (suc (min phase (length config.now.numbers.round_parameters.items))) }
    ensures small { (result.fold ≤ 16) × (result.log ≤ 16) }
{
    let numbers = config.phase(phase);
    PhaseShape {
        fold: numbers.factor,
        log: config.positions(phase).log,
        vars: numbers.variables - numbers.factor,
    }
}
