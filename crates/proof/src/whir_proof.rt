// A whole proof: four lists, and the places of its parts in them.
ghost use Rattle.std.specs.Prelude.{◌≡◌};
ghost use Rattle.std.specs.List.{list_all};
ghost use Rattle.proof.specs.Places.{sumcheck_within, openings_within, round_within, rounds_within, final_within, Made};

use crate::{Limit, Place};

/// A sumcheck's messages, of which each is two extension elements, and its witnesses among the base elements.
#[derive(Clone, Copy, PartialEq, Eq, Debug)]
pub struct SumcheckData {
    /// So many pairs, from the start on.
    pub polynomial_evaluations: Place,
    pub pow_witnesses: Place,
}

/// Whether rows are of the base (the initial commitment's) or of the extension (every folded commitment's).
#[derive(Clone, Copy, PartialEq, Eq, Debug)]
pub enum RowKind {
    Base,
    Extension,
}

/// Rows opened at many queried positions, one after another, and the nodes of their paths.
#[derive(Clone, Copy, PartialEq, Eq, Debug)]
pub struct QueryOpenings {
    pub kind: RowKind,
    pub count: usize,
    pub rows: Place,
    pub paths: Place,
}

/// What a round sends. A commitment that is missing has no place.
#[derive(Clone, Copy, PartialEq, Eq, Debug)]
pub struct WhirRoundProof<F> {
    pub commitment: Option<usize>,
    pub ood_answers: Place,
    pub pow_witness: F,
    pub openings: QueryOpenings,
    pub sumcheck: SumcheckData,
}

/// The lists that a proof's places stand in.
#[derive(Clone, Copy, PartialEq, Eq, Debug)]
pub struct ProofLists<'a, F, E, C, N> {
    pub base: &'a [F],
    pub extension: &'a [E],
    pub commitments: &'a [C],
    pub nodes: &'a [N],
}

/// The parts of a proof. One that is missing is not one that is empty. The answers to the commitment's own out-of-domain samples are held,
/// and not read.
#[derive(Clone, Copy, PartialEq, Eq, Debug)]
pub struct ProofParts<'a, F> {
    pub initial_ood_answers: Place,
    pub initial_sumcheck: SumcheckData,
    pub rounds: &'a [WhirRoundProof<F>],
    pub final_poly: Option<Place>,
    pub final_pow_witness: F,
    pub final_openings: QueryOpenings,
    pub final_sumcheck: Option<SumcheckData>,
}

/// A complete proof, no part of which passes its list.
#[derive(Clone, Copy, PartialEq, Eq, Debug)]
pub struct WhirProof<'a, F, E, C, N> {
    pub lists: ProofLists<'a, F, E, C, N>,
    pub parts: ProofParts<'a, F>,
}

impl SumcheckData {
    // Whether messages and witnesses stand within lists of so many base and extension elements.
    fn within(&self, base: usize, extension: usize) -> bool
        ensures { result ≡ sumcheck_within base extension self.now }
    {
        self.polynomial_evaluations.fits(2, extension) && self.pow_witnesses.fits(1, base)
    }
}

impl QueryOpenings {
    // Whether rows and paths stand within lists of so many base elements, extension elements and nodes.
    fn within(&self, base: usize, extension: usize, nodes: usize) -> bool
        ensures { result ≡ openings_within base extension nodes self.now }
    {
        let elements = match self.kind {
            RowKind::Base => base,
            RowKind::Extension => extension,
        };
        self.rows.fits(1, elements) && self.paths.fits(1, nodes)
    }
}

impl<F> WhirRoundProof<F> {
    // Whether each part of the round stands within its list.
    fn within<E, C, N>(&self, lists: &ProofLists<F, E, C, N>) -> bool
        ensures { result ≡ round_within lists.now self.now }
    {
        let (base, extension) = (lists.base.len(), lists.extension.len());
        self.commitment
            .is_none_or(|place| place < lists.commitments.len())
            && self.ood_answers.fits(1, extension)
            && self.openings.within(base, extension, lists.nodes.len())
            && self.sumcheck.within(base, extension)
    }
}

impl<'a, F> ProofParts<'a, F> {
    // Whether the parts up to the last round stand within their lists.
    fn rounds_within<E, C, N>(&self, lists: &ProofLists<F, E, C, N>) -> bool
        ensures { result ≡ rounds_within lists.now self.now }
    {
        let (base, extension) = (lists.base.len(), lists.extension.len());
        self.initial_ood_answers.fits(1, extension)
            && self.initial_sumcheck.within(base, extension)
            && all_within(self.rounds, lists)
    }

    // Whether those of the final phase do.
    fn final_within<E, C, N>(&self, lists: &ProofLists<F, E, C, N>) -> bool
        ensures { result ≡ final_within lists.now self.now }
    {
        let (base, extension) = (lists.base.len(), lists.extension.len());
        self.final_poly.is_none_or(|place| place.fits(1, extension))
            && self
                .final_openings
                .within(base, extension, lists.nodes.len())
            && self
                .final_sumcheck
                .is_none_or(|data| data.within(base, extension))
    }
}

// Whether each part of each round stands within its list.
fn all_within<F, E, C, N>(rounds: &[WhirRoundProof<F>], lists: &ProofLists<F, E, C, N>) -> bool
    ensures { result ≡ list_all (round_within lists.now) rounds.now }
{
    rounds.iter().all(|round| round.within(lists))
}

impl<'a, F: Copy, E, C, N> WhirProof<'a, F, E, C, N> {
    /// Makes a proof of lists and parts; refuses a part that passes its list.
    pub fn new(lists: ProofLists<'a, F, E, C, N>, parts: ProofParts<'a, F>) -> Result<Self, Limit>
        ensures { Made lists.entry parts.entry result }
    {
        if parts.rounds_within(&lists) && parts.final_within(&lists) {
            Ok(WhirProof { lists, parts })
        } else {
            Err(Limit)
        }
    }
}

#[cfg(test)]
mod tests {
    use super::*;

    const NOTHING: Place = Place {
        start: 0,
        length: 0,
    };

    fn first(length: usize) -> Place {
        Place { start: 0, length }
    }

    fn sumcheck(polynomial_evaluations: Place) -> SumcheckData {
        SumcheckData {
            polynomial_evaluations,
            pow_witnesses: NOTHING,
        }
    }

    fn openings(kind: RowKind, rows: Place) -> QueryOpenings {
        QueryOpenings {
            kind,
            count: 1,
            rows,
            paths: NOTHING,
        }
    }

    // Whether a proof of one round is made in lists of 4 base elements, 5 extension elements, 2 commitments and no node.
    fn is_made(commitment: Option<usize>, messages: Place, opened: QueryOpenings) -> bool {
        let round = WhirRoundProof {
            commitment,
            ood_answers: NOTHING,
            pow_witness: 0,
            openings: opened,
            sumcheck: sumcheck(messages),
        };
        let lists = ProofLists {
            base: &[0u8; 4],
            extension: &[0u16; 5],
            commitments: &[0u32; 2],
            nodes: &[0u64; 0],
        };
        let parts = ProofParts {
            initial_ood_answers: first(5),
            initial_sumcheck: sumcheck(NOTHING),
            rounds: &[round],
            final_poly: None,
            final_pow_witness: 0,
            final_openings: openings(RowKind::Base, first(4)),
            final_sumcheck: None,
        };
        WhirProof::new(lists, parts).is_ok()
    }

    #[test]
    fn parts_end_within_their_lists(rt: HostRuntime) {
        let (base, extension) = (RowKind::Base, RowKind::Extension);
        let cases = [
            (None, first(2), openings(base, first(4)), true),
            (Some(1), first(2), openings(extension, first(5)), true),
            // a commitment one past the last
            (Some(2), first(2), openings(base, first(4)), false),
            // a third message has one element of its two
            (Some(1), first(3), openings(base, first(4)), false),
            // rows of the other kind's length
            (Some(1), first(2), openings(base, first(5)), false),
        ];
        for (commitment, messages, opened, made) in cases {
            assert_eq!(rt; is_made(commitment, messages, opened), made);
        }
    }
}
