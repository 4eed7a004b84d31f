// The positions of a phase: how many there are, how many are drawn, and the rows that are opened.
ghost use Rattle.std.specs.Prelude.{◌≡◌, ◌≤◌, ◌^◌};
ghost use Rattle.configuration.specs.Phases.{drawn, query_draws, rows_at};

use crate::checks::query_draws;
use crate::walk::PhaseNumbers;

// The positions of a phase, as many as a power of two, and the queries made among them.
#[derive(Clone, Copy, PartialEq, Eq, Debug)]
pub struct Positions {
    // Bits of an index.
    pub log: usize,

    // Its queries.
    pub queries: usize,
    ghost few: { log ≤ 16 },
}

impl Positions {
    // How many there are.
    pub fn count(self) -> usize
        ensures { result ≡ 2 ^ self.log }
    {
        1 << self.log
    }

    // How many are drawn; none where every position opens.
    pub fn draws(self) -> Option<usize>
        ensures { result ≡ drawn (query_draws (2 ^ self.log) self.queries) }
    {
        query_draws(self.count(), self.queries)
    }

    // Rows that are opened: those drawn, and every one where nothing is drawn.
    pub fn rows(self) -> usize
        ensures { result ≡ rows_at self.log self.queries }
    {
        self.draws().unwrap_or(self.count())
    }
}

impl PhaseNumbers {
    ghost use Rattle.configuration.specs.Walk.{PositionsOf};

    // The positions of the phase; none where its domain has more than 2 ^ 16 places.
    pub fn positions(self) -> Option<Positions>
        ensures { PositionsOf self result }
    {
        let log_domain = self
            .variables
            .checked_add(self.rate)
            .filter(|log| *log <= 16)?;
        Some(Positions {
            log: log_domain.saturating_sub(self.factor),
            queries: self.queries,
        })
    }
}
