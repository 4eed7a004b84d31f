// Why a text was not read.
ghost use Rattle.std.specs.Prelude.{◌≡◌};
ghost use Rattle.format.specs.declared.errors.Fault.TheVariants.{OutOfMemory};

use crate::keys::Key;
use std::alloc::{AllocError, AllocFailed};
use std::fmt;
use thiserror::Error;

// What should have stood where reading stopped.
#[derive(Clone, Copy, PartialEq, Eq, Debug)]
pub enum Expected {
    // This key word.
    Word(Key),

    // A blank between two words.
    Blank,

    // The line feed that ends a line.
    LineEnd,

    // One or more decimal digits.
    Number,

    // Digits of a smaller number.
    NumberBelow64Bits,

    // A number that is a byte.
    Byte,

    // One of the two truth values.
    Flag,

    // The index of the line in its group.
    Index(usize),

    // The name of a folding strategy.
    Strategy,
}

// Why a part was not read: the text stood otherwise, or memory ran out.
#[derive(Clone, Copy, PartialEq, Eq, Debug, Error)]
pub enum Fault {
    #[error("expected {0}")]
    Syntax(Expected),
    #[error("out of memory")]
    OutOfMemory,
}

impl Fault {
    ghost use Rattle.format.specs.Files.{placed};

    // The error of a file, where this is the fault of what stands on the line.
    pub fn on_line(self, line: usize) -> ReadError
        ensures { result ≡ placed self line }
    {
        match self {
            Fault::Syntax(expected) => ReadError::Syntax { line, expected },
            Fault::OutOfMemory => ReadError::OutOfMemory,
        }
    }
}

// Kept: want of memory comes to a caller's `?` as either of two errors. Both impls are public, and each says what it makes; `#[from(alloc)]` of the
// derive writes both, and says of neither.
impl From<AllocError> for Fault {
    ghost from_gives = { λ _ r. r ≡ OutOfMemory };

    fn from(_e: AllocError) -> Fault {
        Fault::OutOfMemory
    }
}

impl<T: Drop> From<AllocFailed<T>> for Fault {
    ghost from_gives = { λ _ r. r ≡ OutOfMemory };

    fn from(_e: AllocFailed<T>) -> Fault {
        Fault::OutOfMemory
    }
}

// Why a file was not read: the line, counted from 1, with what was expected there; or want of memory.
#[derive(Clone, Copy, PartialEq, Eq, Debug, Error)]
pub enum ReadError {
    #[error("line {line}: expected {expected}")]
    Syntax { line: usize, expected: Expected },
    #[error("out of memory")]
    OutOfMemory,
}

impl fmt::Display for Expected {
    fn fmt<W: fmt::Write>(&self, f: &mut fmt::Formatter<W>) -> fmt::Result {
        match *self {
            Expected::Word(key) => write!(f, "the word {key}"),
            Expected::Blank => write!(f, "one blank"),
            Expected::LineEnd => write!(f, "the end of the line"),
            Expected::Number => write!(f, "a number"),
            Expected::NumberBelow64Bits => write!(f, "a number below 2^64"),
            Expected::Byte => write!(f, "a number below 256"),
            Expected::Flag => write!(f, "0 or 1"),
            Expected::Index(index) => write!(f, "the index {index}"),
            Expected::Strategy => write!(f, "constant, second or per_round"),
        }
    }
}
