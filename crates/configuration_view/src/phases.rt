// What is shown of a phase, and of the buffers.
use std::fmt;

// One phase of a run.
#[derive(Clone, Copy, PartialEq, Eq, Debug)]
pub struct Phase {
    // Variables before the phase.
    pub variables: usize,

    // Log of the inverse rate before it.
    pub rate: usize,

    // Log of the number of its positions.
    pub log_positions: usize,

    // Rows that it opens.
    pub rows: usize,

    // Positions that are drawn.
    //
    // Kept: the number that is shown, 0 where every one opens; an `Option` would be turned into it again.
    pub draws: usize,
}

impl fmt::Display for Phase {
    fn fmt<W: fmt::Write>(&self, f: &mut fmt::Formatter<W>) -> fmt::Result {
        write!(
            f,
            "variables {} rate {} log_positions {} rows {} draws {}",
            self.variables, self.rate, self.log_positions, self.rows, self.draws
        )
    }
}

// How many places each buffer of a verification needs.
#[derive(Clone, Copy, PartialEq, Eq, Debug)]
pub struct Buffers {
    // A challenge for each variable.
    pub point: usize,

    // The two sides of the closing identity.
    pub pair: usize,

    // A row of the widest phase.
    pub fold: usize,

    // A place for each out-of-domain sample of a round, and two for each round.
    pub notes: usize,

    // The positions that all phases open.
    pub positions: usize,
}

impl fmt::Display for Buffers {
    fn fmt<W: fmt::Write>(&self, f: &mut fmt::Formatter<W>) -> fmt::Result {
        write!(
            f,
            "point {} pair {} fold {} notes {} positions {}",
            self.point, self.pair, self.fold, self.notes, self.positions
        )
    }
}

// The phases of a configuration and its buffers.
#[derive(Drop, PartialEq, Eq, Debug)]
pub struct View {
    pub phases: Vec<Phase>,
    pub buffers: Buffers,
}
