// What stands at the places of a proof.
ghost use Rattle.std.specs.Prelude.{◌≡◌};
ghost use Rattle.sumcheck.specs.Verified.{sent_by};
ghost use Rattle.verification.specs.Proof.{part_of, sumcheck_at, opening_at};
ghost use Rattle.verifier.specs.Inputs.{flat_of};
ghost use Rattle.verifier.specs.Rows.{opening_of};

use crate::rows::{Opened, OpenedRows};
use commit::view::part;
use proof::Place;
use proof::whir_proof::{QueryOpenings, RowKind, SumcheckData, WhirProof};
use sumcheck::SumcheckSlices;

// So many pairs, from a start on; past the list's end there are fewer elements, or none.
fn pairs_at<E>(list: &[E], place: Place) -> &[E]
    ensures { result.now ≡ part_of 2 list.now place }
{
    part(list, place.start, place.length.saturating_mul(2))
}

// The messages and witnesses of a sumcheck.
pub(crate) fn sent_in<'b, F, E, C, N>(
    proof: &WhirProof<'b, F, E, C, N>,
    places: SumcheckData,
) -> SumcheckSlices<'b, F, E>
    ensures { sent_by result ≡ sumcheck_at (flat_of proof.now) places }
{
    let witnesses = places.pow_witnesses;
    SumcheckSlices {
        messages: pairs_at(proof.lists.extension, places.polynomial_evaluations),
        witnesses: part(proof.lists.base, witnesses.start, witnesses.length),
    }
}

// The rows of an opening, and their paths.
pub(crate) fn opened_in<'b, F, E, C, N>(
    proof: &WhirProof<'b, F, E, C, N>,
    openings: &QueryOpenings,
) -> Opened<'b, F, E, N>
    ensures { opening_of result ≡ opening_at (flat_of proof.now) openings.now }
{
    let (rows, paths) = (openings.rows, openings.paths);
    let rows = match openings.kind {
        RowKind::Base => OpenedRows::Base(part(proof.lists.base, rows.start, rows.length)),
        RowKind::Extension => OpenedRows::Extension(part(
            proof.lists.extension,
            rows.start,
            rows.length,
        )),
    };
    Opened {
        count: openings.count,
        rows,
        paths: part(proof.lists.nodes, paths.start, paths.length),
    }
}
