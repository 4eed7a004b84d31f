//! The calls of one line, made on a new sponge and compared word by word.
use hexadecimal::from_hex;
use sponge::Sponge;
use sponge::archive::ArchiveSponge;
use sponge::trial::TrialSponge;
use std::alloc::{AllocError, Global};
use std::fmt;
use std::num::ParseIntError;
use thiserror::Error;

/// Why a line has no answer.
#[derive(Debug, Drop, Error)]
pub enum LineError {
    #[error("the line is no list of calls")]
    Unreadable,
    #[error(transparent)]
    Number(#[from] ParseIntError),
    #[error(transparent)]
    OutOfMemory(#[from(alloc)] AllocError),
}

/// How many lines and calls have been replayed, and how many lines disagree.
#[derive(Clone, Copy, Debug, Default, PartialEq, Eq)]
pub struct Tally {
    pub lines: u32,
    pub observes: u32,
    pub draws: u32,
    pub wrong: u32,
}

impl fmt::Display for Tally {
    fn fmt<W: fmt::Write>(&self, f: &mut fmt::Formatter<W>) -> fmt::Result {
        let Tally {
            lines,
            observes,
            draws,
            wrong,
        } = *self;
        write!(
            f,
            "{lines} lines, {observes} observes, {draws} draws; {wrong} lines disagree"
        )
    }
}

/// A kind of sponge that stored lines speak of: its name, and its state as they write it.
pub trait Stored: Sponge {
    const NAME: &'static str;

    fn is_at(&self, heap: Global, state: &str) -> Result<bool, LineError>;
}

impl Stored for ArchiveSponge {
    const NAME: &'static str = "archive";

    fn is_at(&self, heap: Global, state: &str) -> Result<bool, LineError> {
        let bytes = from_hex(heap, state)?;
        Ok(bytes.is_some_and(|bytes| bytes.as_slice() == &self.state()[..]))
    }
}

impl Stored for TrialSponge {
    const NAME: &'static str = "trial";

    fn is_at(&self, heap: Global, state: &str) -> Result<bool, LineError> {
        Ok(state.parse::<u64>()? == self.state())
    }
}

/// Makes the calls on a new sponge, and says whether all that the line states came out.
pub(crate) fn replay<S: Stored + Drop>(
    heap: Global,
    seed: S::Seed,
    calls: &str,
    tally: &mut Tally,
) -> Result<bool, LineError> {
    let mut sponge = S::make(seed);
    let mut words = calls.split(' ');
    while let (Some(call), Some(word)) = (words.next(), words.next()) {
        match call {
            "observe" => {
                let bytes = from_hex(heap, word)?.ok_or(LineError::Unreadable)?;
                tally.observes = tally.observes.saturating_add(1);
                sponge.observe(&bytes);
            }
            "draw" => {
                tally.draws = tally.draws.saturating_add(1);
                if sponge.draw() != word.parse::<u32>()? {
                    return Ok(false);
                }
            }
            "after" => {
                let state = words.next().ok_or(LineError::Unreadable)?;
                return Ok(word == S::NAME && sponge.is_at(heap, state)? && words.next().is_none());
            }
            _ => return Err(LineError::Unreadable),
        }
    }
    Err(LineError::Unreadable)
}
