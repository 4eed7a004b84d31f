// What a checked configuration says of its phases. Nothing here panics: a round that is not there is answered by `None`.
ghost use Rattle.std.specs.Prelude.{◌≡◌, ◌+◌, ◌^◌, ◌≤◌, min, length, take, sum};
ghost use Rattle.std.specs.List.{slice_get};
ghost use Rattle.configuration.specs.Numbers.{numbers_of};
ghost use Rattle.configuration.specs.Phases.{log_positions_of, queries};
ghost use Rattle.configuration.specs.Views.{kind_number, reduction, hardest, final_round};
ghost use Rattle.configuration.specs.Walk.{phase_at, phases_left, phases};

use crate::positions::Positions;
use crate::walk::{PhaseNumbers, Phases};
use crate::whir::WhirConfig;
use crate::whir_parameters::{ProtocolParameters, RoundConfig, SecurityAssumption};

impl WhirConfig {
    // The type of soundness guarantee.
    pub fn soundness_type(&self) -> SecurityAssumption
        ensures { kind_number result ≡ self.now.numbers.soundness }
    {
        SecurityAssumption::try_from(self.numbers.soundness).unwrap()
    }

    // User-facing parameters.
    pub fn params(&self) -> ProtocolParameters<'_>
        ensures rates { (result.starting_log_inv_rate ≡ self.now.numbers.starting_log_inv_rate) × (result.round_log_inv_rates.now ≡ self.now.numbers.round_log_inv_rates.items) }
        ensures rest { (result.folding_factor.now ≡ self.now.numbers.folding_factor) × (kind_number result.soundness_type ≡ self.now.numbers.soundness) }
        ensures bits { (result.security_level ≡ self.now.numbers.security_level) × (result.pow_bits ≡ self.now.numbers.pow_budget) }
    {
        ProtocolParameters {
            starting_log_inv_rate: self.numbers.starting_log_inv_rate,
            round_log_inv_rates: self.numbers.round_log_inv_rates.as_slice(),
            folding_factor: &self.numbers.folding_factor,
            soundness_type: self.soundness_type(),
            security_level: self.numbers.security_level,
            pow_bits: self.numbers.pow_budget,
        }
    }

    // Returns the size of the initial evaluation domain.
    pub fn starting_domain_size(&self) -> usize
        ensures { result ≡ 2 ^ (self.now.numbers.num_variables + self.now.numbers.starting_log_inv_rate) }
    {
        let log_size = self.numbers.num_variables + self.numbers.starting_log_inv_rate;
        1 << log_size
    }

    // Returns the number of intermediate WHIR rounds.
    pub fn n_rounds(&self) -> usize
        ensures { result ≡ length self.now.numbers.round_parameters.items }
    {
        self.numbers.round_parameters.len()
    }

    // Returns how many bits the RS domain shrinks by at the given round.
    pub fn rs_reduction_factor(&self, round: usize) -> Option<usize>
        ensures { result ≡ reduction (numbers_of self.now.numbers) round }
    {
        let after = self.numbers.round_parameters.get(round)?.log_inv_rate;
        let factor = self.round_folding_factor(round)?;
        let before = self.numbers.rate_before(round).saturating_add(factor);
        Some(before.saturating_sub(after))
    }

    // Largest proof-of-work difficulty (in bits) demanded by any phase.
    pub fn max_pow_bits(&self) -> usize
        ensures { result ≡ hardest (numbers_of self.now.numbers) }
    {
        let outer = self
            .numbers
            .starting_folding_pow_bits
            .max(self.numbers.terminal.pow_bits)
            .max(self.numbers.final_folding_pow_bits);
        self.numbers
            .round_parameters
            .iter()
            .map(|round| round.pow_bits.max(round.folding_pow_bits))
            .fold(outer, usize::max)
    }

    // Retrieves the concrete derived folding factor for a given phase.
    pub fn round_folding_factor(&self, round: usize) -> Option<usize>
        ensures { result ≡ slice_get self.now.numbers.folding_schedule.items round }
    {
        self.numbers.folding_schedule.get(round).copied()
    }

    // Total variables folded through the given phase, inclusive; all of them past the last.
    pub fn total_folded_through(&self, round: usize) -> usize
        ensures { result ≡ sum (take (round + 1) self.now.numbers.folding_schedule.items) }
    {
        self.numbers
            .folding_schedule
            .iter()
            .take(round.saturating_add(1))
            .sum()
    }

    // The phases in turn.
    pub fn phases(&self) -> Phases<'_>
        ensures { phases_left result ≡ phases (numbers_of self.now.numbers) self.now.numbers.folding_schedule.items }
    {
        self.numbers.phases(&self.numbers.folding_schedule)
    }

    // The final phase, as a round.
    pub fn final_round_config(&self) -> RoundConfig
        ensures { result ≡ final_round (numbers_of self.now.numbers) }
    {
        let last = self.phase(self.n_rounds());
        let log = last.variables + last.rate;
        RoundConfig {
            pow_bits: self.numbers.terminal.pow_bits,
            folding_pow_bits: self.numbers.final_folding_pow_bits,
            num_queries: self.numbers.terminal.num_queries,
            ood_samples: 0,
            num_variables: last.variables - last.factor,
            folding_factor: last.factor,
            log_inv_rate: last.rate,
            domain_size: 1 << log,
            log_folded_domain_size: log - last.factor,
        }
    }

    // A phase by its place; one past the last is the last, the final phase, which comes after as many as there are rounds.
    pub fn phase(&self, phase: usize) -> PhaseNumbers
        ensures phase { result ≡ phase_at (numbers_of self.now.numbers) self.now.numbers.folding_schedule.items (min phase (length self.now.numbers.round_parameters.items)) }
        ensures domain { result.variables + result.rate ≤ 16 }
        ensures fold { result.factor ≤ result.variables }
    {
        self.phases().nth(phase.min(self.n_rounds())).unwrap()
    }

    // The positions of a phase, by its place.
    pub fn positions(&self, phase: usize) -> Positions
        ensures log { result.log ≡ log_positions_of (numbers_of self.now.numbers) self.now.numbers.folding_schedule.items (min phase (length self.now.numbers.round_parameters.items)) }
        ensures queries { result.queries ≡ queries (numbers_of self.now.numbers) (min phase (length self.now.numbers.round_parameters.items)) }
    {
        let phase = self.phase(phase);
        Positions {
            log: phase.variables + phase.rate - phase.factor,
            queries: phase.queries,
        }
    }
}
