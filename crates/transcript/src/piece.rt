// The bytes of one piece of the separator, put together without an allocation.
ghost use Rattle.std.specs.Prelude.{◌≤◌};

use std::fmt;
use thiserror::Error;

// The bytes so far, at most 48: a step has at most 39, an instance at most 41.
#[derive(Clone, Copy)]
pub struct Piece {
    bytes: [u8; 48],
    len: usize,
    ghost fits: { len ≤ 48 },
}

// There are more than 48 bytes.
#[derive(Clone, Copy, PartialEq, Eq, Debug, Error)]
#[error("a piece has at most 48 bytes")]
pub struct TooLong;

impl Piece {
    ghost use Rattle.std.specs.Prelude.{◌≡◌, ◌+◌, ◌<◌, [], ◌∷◌, ◌++◌, length};
    ghost use Rattle.transcript.specs.Instances.{instance_bytes};
    ghost use Rattle.transcript.specs.Written.{written};

    // A piece of no bytes.
    pub(crate) fn new() -> Piece
        ensures { written result ≡ [] }
    {
        Piece {
            bytes: [0; 48],
            len: 0,
        }
    }

    // A piece of these bytes.
    pub(crate) fn of(bytes: &[u8]) -> Piece
        requires { length bytes.now ≤ 48 }
        ensures { written result ≡ bytes.now }
    {
        let mut piece = Piece::new();
        piece.append(bytes);
        piece
    }

    // One byte more.
    pub(crate) fn push(&mut self, byte: u8)
        requires { length (written self.old) < 48 }
        ensures { written self.new ≡ written self.old ++ (byte ∷ []) }
    {
        self.bytes[self.len] = byte;
        self.len += 1;
    }

    // More bytes.
    pub(crate) fn append(&mut self, more: &[u8])
        requires { length (written self.old) + length more.now ≤ 48 }
        ensures { written self.new ≡ written self.old ++ more.now }
    {
        let end = self.len + more.len();
        self.bytes[self.len..end].copy_from_slice(more);
        self.len = end;
    }

    // The bytes.
    pub fn as_slice(&self) -> &[u8]
        ensures value { result.now ≡ written self.now }
        ensures fits { length result.now ≤ 48 }
    {
        &self.bytes[..self.len]
    }

    // The piece of an instance: a byte 1, the length, the bytes.
    #[tactic(auto, using(crate::proofs::Writing::eight_bytes), unfolding(crate::specs::Instances::instance_bytes))]
    pub(crate) fn instance(bytes: &[u8]) -> Piece
        requires { length bytes.now ≤ 32 }
        ensures { written result ≡ instance_bytes bytes.now }
    {
        let mut piece = Piece::new();
        piece.push(1);
        piece.append(&bytes.len().to_be_bytes());
        piece.append(bytes);
        piece
    }
}

// A piece of these bytes, if there are at most 48.
impl TryFrom<&[u8]> for Piece {
    ghost use Rattle.std.specs.Prelude.{◌≡◌, ◌<◌, ◌≤◌, length, MatchResult};
    ghost use Rattle.transcript.specs.Written.{written};

    type Error = TooLong;

    ghost try_from_gives = { λ bytes r. MatchResult r (λ piece. (written piece ≡ bytes.now) × (length bytes.now ≤ 48)) (λ _. 48 < length bytes.now) };

    fn try_from(bytes: &[u8]) -> Result<Piece, TooLong> {
        if bytes.len() > 48 {
            return Err(TooLong);
        }
        Ok(Piece::of(bytes))
    }
}

// Pieces are equal where their bytes are.
impl PartialEq for Piece {
    ghost use Rattle.std.specs.Prelude.{nat_eq};
    ghost use Rattle.std.specs.Cmp.{on_per, partial_equiv_from_equiv};
    ghost use Rattle.std.specs.Cmp.Lexicographic.{pointwise, nat_list_eq_equiv};
    ghost use Rattle.transcript.specs.Written.{written};

    ghost eq = { λ p q. pointwise nat_eq (written p) (written q) };

    ghost laws = { on_per written (partial_equiv_from_equiv nat_list_eq_equiv) };

    fn eq(&self, other: &Piece) -> bool {
        self.as_slice() == other.as_slice()
    }
}

impl Eq for Piece {
    ghost use Rattle.std.specs.Cmp.{on_equiv};
    ghost use Rattle.std.specs.Cmp.Lexicographic.{nat_list_eq_equiv};
    ghost use Rattle.transcript.specs.Written.{written};

    ghost laws = { on_equiv written nat_list_eq_equiv };
}

// The list of the bytes.
impl fmt::Debug for Piece {
    fn fmt<W: fmt::Write>(&self, f: &mut fmt::Formatter<W>) -> fmt::Result {
        fmt::Debug::fmt(self.as_slice(), f)
    }
}
