ghost use Rattle.std.specs.Prelude.{◌≡◌, option_copied};
ghost use Rattle.commit.specs.Opening.{piece};
ghost use Rattle.commit.specs.Shelves.{shelf_row, same_row, Compared, stands, kept, HeldOn};
ghost use Rattle.commit.specs.ShelfLaws.{kept_laws};

use crate::shelf::Shelf;
use crate::{OpeningScheme, Places, Rows, Sink, view};
use arrayvec::ArrayVec;
use field::BaseField;

// Kept: one lent slice of values with places in it. A slice for each shelf, `&[Flat<F>]`, would not tell how many rows of width 0 there are, so a
// height would stand beside it; and what a kept table means is defined over one list of values with places in it.
/// Tables that the reader holds: a commitment is the number of a shelf.
#[derive(Clone, Copy, PartialEq, Eq, Debug)]
pub struct KeptTables<'a, F> {
    pub values: &'a [F],
    pub shelves: &'a [Shelf],
}

impl<'a, F: BaseField> KeptTables<'a, F> {
    // The row of a shelf at an index.
    fn row(&self, shelf: &Shelf, index: usize) -> &[F]
        ensures { result.now ≡ shelf_row self.now.values.now shelf.now index }
    {
        let start = shelf
            .start
            .saturating_add(index.saturating_mul(shelf.width));
        view::part(self.values, start, shelf.width)
    }

    // Is the k-th row that at an index of the shelf of that number?
    fn stands<R: Rows<F>>(&self, number: u32, index: usize, rows: &R, k: usize) -> bool
        ensures { result ≡ stands F.BaseField.numbering self.now.values.now self.now.shelves.now number (R.Rows.wide rows.now) index (piece (R.Rows.flat rows.now) (R.Rows.wide rows.now) k) }
    {
        let Some(shelf) = self.shelves.get(number as usize) else {
            return false;
        };
        rows.width_is(shelf.width)
            && index < shelf.height
            && same_row(rows, k, self.row(shelf, index))
    }
}

// Compares a row element by element with another: what is left of the other, or nothing once they differ.
#[derive(Clone, Copy)]
struct Comparing<'a, F> {
    rest: Option<&'a [F]>,
}

impl<'a, F: BaseField> Sink<F> for Comparing<'a, F> {
    ghost fed = { λ s xs t. Compared F.BaseField.numbering (option_copied s.rest) xs (option_copied t.rest) };

    fn put(&mut self, element: F) {
        self.rest = match self.rest {
            Some([next, rest @ ..]) if element == *next => Some(rest),
            _ => None,
        };
    }
}

// Are the elements of a row those of another?
fn same_row<F: BaseField, R: Rows<F>>(rows: &R, k: usize, other: &[F]) -> bool
    ensures { result ≡ same_row F.BaseField.numbering (piece (R.Rows.flat rows.now) (R.Rows.wide rows.now) k) other.now }
{
    let compared = rows.feed(k, Comparing { rest: Some(other) });
    compared.rest.is_some_and(|rest| rest.is_empty())
}

impl<'a, F: BaseField> OpeningScheme<F> for KeptTables<'a, F> {
    type Commitment = u32;

    type Node = ();

    ghost meaning = { λ s. kept F.BaseField.numbering s.values.now s.shelves.now };

    ghost commits = { λ s c matrix. HeldOn s.values.now s.shelves.now c matrix };

    ghost laws = { λ s. kept_laws F.Field.ops F.BaseField.numbering F.BaseField.numbered s.values.now s.shelves.now };

    fn check<R: Rows<F>>(&self, commitment: &u32, places: &Places<()>, rows: &R) -> bool {
        rows.count_is(places.indices.len())
            && places.paths.is_empty()
            && places
                .indices
                .iter()
                .enumerate()
                .all(|(k, index)| self.stands(*commitment, *index, rows, k))
    }

    fn commitment_bytes(&self, commitment: &u32) -> ArrayVec<u8, 32> {
        let bytes = commitment.to_le_bytes();
        ArrayVec::try_from(&bytes[..]).unwrap()
    }
}
