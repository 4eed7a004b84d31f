//! Opening schemes: commitments to matrices, and rows that are opened against them.
#![tactic(auto)]

ghost use Rattle.std.specs.Prelude.{◌≡◌, ℕ, ◌*◌, List, [], ◌∷◌, ◌++◌, length, ◌==◌};
ghost use Rattle.commit.specs.Opening.{Meaning, Laws, opens, piece};

use arrayvec::ArrayVec;

pub mod extension;
pub mod kept;
pub mod merkle;
pub mod opening;
pub mod shelf;
pub mod view;

/// What takes elements one after another.
pub trait Sink<X> {
    /// Taking these elements in turn leads from the one to the other.
    ghost fed: { Self → List X → Self → Type 0 };

    fn put(&mut self, element: X)
        ensures { (s : Self) (xs : List X) → fed s xs self.old → fed s (xs ++ (element ∷ [])) self.new };
}

/// Rows of one width, one after another.
pub trait Rows<X> {
    /// How many elements a row has.
    ghost wide: { Self → ℕ };

    /// The elements of all rows in turn.
    ghost flat: { Self → List X };

    /// Are these exactly so many rows?
    fn count_is(&self, count: usize) -> bool
        ensures { result ≡ (length (flat self.now) == count * wide self.now) };

    /// Has a row so many elements?
    fn width_is(&self, width: usize) -> bool
        ensures { result ≡ (wide self.now == width) };

    // Kept: a row goes as the rows and its number, here and in the functions that take one (`leaf`, `same_row`, `stands`): a struct of the
    // two would be made at each call and taken apart at each `feed`, and no clause would be shorter.
    /// Gives the elements of a row to a sink.
    fn feed<K: Sink<X>>(&self, row: usize, sink: K) -> K
        ensures { (s : K) (xs : List X) → K.Sink.fed s xs sink → K.Sink.fed s (xs ++ piece (flat self.now) (wide self.now) row) result };
}

// Kept: paths are lent in one flat slice, each of the scheme's own length, for the reason that stands beside `view::Flat`.
/// Where rows are opened: among how many positions, at which indices in turn, and with which paths, one after another.
#[derive(Clone, Copy, PartialEq, Eq, Debug)]
pub struct Places<'a, N> {
    pub positions: usize,
    pub indices: &'a [usize],
    pub paths: &'a [N],
}

/// A scheme that opens rows of X against commitments to matrices.
pub trait OpeningScheme<X> {
    type Commitment;

    type Node;

    ghost meaning: { Self → Meaning X Self.Commitment Self.Node };

    /// The commitment is of the matrix.
    ghost commits: { Self → Self.Commitment → List (List X) → Type 0 };

    /// Are these as many rows and path parts as the indices ask, and every row right?
    fn check<R: Rows<X>>(
        &self,
        commitment: &Self::Commitment,
        places: &Places<Self::Node>,
        rows: &R,
    ) -> bool
        ensures { result ≡ opens (meaning self.now) commitment.now (R.Rows.wide rows.now) places.now.positions places.now.indices.now (R.Rows.flat rows.now) places.now.paths.now };

    /// The bytes that a commitment is observed as.
    fn commitment_bytes(&self, commitment: &Self::Commitment) -> ArrayVec<u8, 32>
        ensures { result.items ≡ (meaning self.now).observed commitment.now };

    /// Both laws of the scheme.
    ghost laws: { (s : Self) → Laws (meaning s) (commits s) };
}
