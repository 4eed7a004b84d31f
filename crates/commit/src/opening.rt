ghost use Rattle.std.specs.Prelude.{◌≡◌, true};
ghost use Rattle.commit.specs.Opening.{opens, Bound, Own};

use crate::view::Flat;
use crate::{OpeningScheme, Places};

/// Checks rows of a slice against a commitment to a matrix of that width and that many rows.
///
/// What is accepted is the matrix's own, unless two lists that were digested collide; what is the matrix's own is accepted.
pub fn check_opening<X: Copy, S: OpeningScheme<X>>(
    scheme: &S,
    commitment: &S::Commitment,
    places: &Places<S::Node>,
    rows: &Flat<X>,
) -> bool
    ensures answer { result ≡ opens (S.OpeningScheme.meaning scheme.now) commitment.now rows.now.width places.now.positions places.now.indices.now rows.now.elements.now places.now.paths.now }
    ensures bound { result ≡ true → Bound (S.OpeningScheme.meaning scheme.now) (S.OpeningScheme.commits scheme.now) commitment.now rows.now.width places.now.positions places.now.indices.now rows.now.elements.now places.now.paths.now }
    ensures own { Own (S.OpeningScheme.meaning scheme.now) (S.OpeningScheme.commits scheme.now) commitment.now rows.now.width places.now.positions places.now.indices.now rows.now.elements.now places.now.paths.now → result ≡ true }
{
    scheme.check(commitment, places, rows)
}
