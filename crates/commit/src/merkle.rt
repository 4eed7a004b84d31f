ghost use Rattle.std.specs.Prelude.{◌≡◌, ℕ, ◌&&◌, List, ◌++◌, ◌==◌, ◌%◌, ◌/◌, if◌then◌else◌};
ghost use Rattle.std.specs.Str.{bytes_eq};
ghost use Rattle.blake2s.specs.Blake2s.{hash};
ghost use Rattle.blake2s.specs.Absorbed.{Absorbed};
ghost use Rattle.field.specs.Bytes.{coefficients_bytes};
ghost use Rattle.commit.specs.Opening.{piece};
ghost use Rattle.commit.specs.Tree.{levels, ordered, climbs, merkle, RootOf, Placed, PathLengths};
ghost use Rattle.commit.specs.TreeLaws.{merkle_laws};

use crate::{OpeningScheme, Places, Rows, Sink, view};
use arrayvec::ArrayVec;
use blake2s::{Hasher, hash_pieces};
use field::BaseField;
use std::marker::PhantomData;

/// Commitments by a tree of digests: a leaf is the digest of a row's bytes, a node that of its two children.
#[derive_where(Clone, Copy)]
pub struct Merkle<F> {
    field: PhantomData<F>,
}

impl<F> Merkle<F> {
    pub fn new() -> Self {
        Merkle { field: PhantomData }
    }
}

// Takes in a row element by element, four bytes each.
struct RowHasher {
    hasher: Hasher,
}

impl<F: BaseField> Sink<F> for RowHasher {
    ghost fed = { λ s xs t. (bs : List ℕ) → Absorbed s.hasher bs → Absorbed t.hasher (bs ++ coefficients_bytes F.BaseField.numbering xs) };

    fn put(&mut self, element: F) {
        self.hasher.update(&element.number().to_le_bytes());
    }
}

// The digest of a row.
fn leaf<F: BaseField, R: Rows<F>>(rows: &R, row: usize) -> [u8; 32]
    ensures { result ≡ hash (coefficients_bytes F.BaseField.numbering (piece (R.Rows.flat rows.now) (R.Rows.wide rows.now) row)) }
{
    let start = RowHasher {
        hasher: Hasher::new(),
    };
    let RowHasher { hasher } = rows.feed(row, start);
    hasher.finish()
}

// The digest of a pair, the left one first.
fn node(index: usize, digest: &[u8; 32], sibling: &[u8; 32]) -> [u8; 32]
    ensures { result ≡ hash (ordered index digest.now sibling.now) }
{
    if index % 2 == 0 {
        hash_pieces(&[digest, sibling])
    } else {
        hash_pieces(&[sibling, digest])
    }
}

// The levels above that many leaves.
fn levels(positions: usize) -> usize
    ensures { result ≡ levels positions }
{
    positions.max(1).ilog2() as usize
}

// A node of the tree: how many positions its level has, its index among them, and its digest.
#[derive(Clone, Copy, PartialEq, Eq, Debug)]
struct TreeNode {
    positions: usize,
    index: usize,
    digest: [u8; 32],
}

impl TreeNode {
    // The node above this one and its sibling, if the level's positions are pairs.
    fn parent(&self, sibling: &[u8; 32]) -> Option<TreeNode>
        ensures { result ≡ (if self.now.positions % 2 == 0 then Some (record { positions = self.now.positions / 2; index = self.now.index / 2; digest = hash (ordered self.now.index self.now.digest sibling.now) }) else None) }
    {
        (self.positions % 2 == 0).then(|| TreeNode {
            positions: self.positions / 2,
            index: self.index / 2,
            digest: node(self.index, &self.digest, sibling),
        })
    }

    // Is this the only node of its level, and the digest that of the root?
    fn is_root(&self, root: &[u8; 32]) -> bool
        ensures { result ≡ (self.now.positions == 1 && (self.now.index == 0 && bytes_eq self.now.digest root.now)) }
    {
        self.positions == 1 && self.index == 0 && self.digest == *root
    }
}

// Do the siblings lead from a leaf up to the root?
fn climbs(root: &[u8; 32], leaf: TreeNode, path: &[[u8; 32]]) -> bool
    ensures { result ≡ climbs root.now leaf.positions leaf.index leaf.digest path.now }
{
    path.iter()
        .try_fold(leaf, |node, sibling| node.parent(sibling))
        .is_some_and(|top| top.is_root(root))
}

impl<F: BaseField> OpeningScheme<F> for Merkle<F> {
    type Commitment = [u8; 32];

    type Node = [u8; 32];

    ghost meaning = { λ _. merkle F.BaseField.numbering };

    ghost commits = { λ _ c matrix. RootOf F.BaseField.numbering c matrix };

    ghost laws = { λ _. merkle_laws F.Field.ops F.BaseField.numbering F.BaseField.numbered };

    fn check<R: Rows<F>>(
        &self,
        commitment: &[u8; 32],
        places: &Places<[u8; 32]>,
        rows: &R,
    ) -> bool {
        let height = levels(places.positions);
        let count = places.indices.len();
        rows.count_is(count)
            && view::fits(places.paths.len(), count, height)
            && places.indices.iter().enumerate().all(|(k, index)| {
                let leaf = TreeNode {
                    positions: places.positions,
                    index: *index,
                    digest: leaf(rows, k),
                };
                climbs(commitment, leaf, view::piece(places.paths, height, k))
            })
    }

    fn commitment_bytes(&self, commitment: &[u8; 32]) -> ArrayVec<u8, 32> {
        ArrayVec::from(*commitment)
    }
}

/// What being right says of positions, index and path: positions that are no power of two, an index that is not below them
/// and a path of another length are not right.
pub fn placed_stands<F: BaseField>()
    ensures { Placed F.BaseField.numbering }
{}

/// The length of a path over a power of two of positions.
pub fn path_lengths_stand()
    ensures { PathLengths }
{}
