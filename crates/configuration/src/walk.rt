// The phases of a schedule in turn: what is left before each, its rate, its factor and its queries.
ghost use Rattle.std.specs.Prelude.{◌≡◌};
ghost use Rattle.configuration.specs.Numbers.{numbers_of};

use crate::whir_parameters::{RoundConfig, WhirNumbers};
use std::slice::Iter;

// What is read of one phase.
#[derive(Clone, Copy, PartialEq, Eq, Debug)]
pub struct PhaseNumbers {
    // Variables before the phase.
    pub variables: usize,

    // Log of the inverse rate before it.
    pub rate: usize,

    // Variables that it folds.
    pub factor: usize,

    // Its queries: those of its round, or of the final phase.
    pub queries: usize,
}

// The phases that are left of a schedule: their factors and the rounds that they have, and what is known before the next one.
#[derive(Clone, Drop)]
pub struct Phases<'a> {
    factors: Iter<'a, usize>,
    rounds: Iter<'a, RoundConfig>,
    variables: usize,
    rate: usize,
    final_queries: usize,
}

impl<'a> Iterator for Phases<'a> {
    ghost use Rattle.std.specs.Iterator.{YieldsFirst, item_count};
    ghost use Rattle.configuration.specs.Walk.{phases_left};

    type Item = PhaseNumbers;

    ghost next_gives = { YieldsFirst phases_left };

    ghost remaining = { item_count phases_left };

    fn next(&mut self) -> Option<PhaseNumbers> {
        let factor = *self.factors.next()?;
        let round = self.rounds.next();
        let phase = PhaseNumbers {
            variables: self.variables,
            rate: self.rate,
            factor,
            queries: round.map_or(self.final_queries, |round| round.num_queries),
        };
        self.variables = self.variables.saturating_sub(factor);
        self.rate = round.map_or(0, |round| round.log_inv_rate);
        Some(phase)
    }
}

impl WhirNumbers {
    ghost use Rattle.configuration.specs.Walk.{phases_left, phases};

    // The phases of a schedule in turn.
    pub fn phases<'a>(&'a self, schedule: &'a [usize]) -> Phases<'a>
        ensures { phases_left result ≡ phases (numbers_of self.now) schedule.now }
    {
        Phases {
            factors: schedule.iter(),
            rounds: self.round_parameters.iter(),
            variables: self.num_variables,
            rate: self.starting_log_inv_rate,
            final_queries: self.terminal.num_queries,
        }
    }
}
