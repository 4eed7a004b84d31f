// Rows that a proof opens, evaluated in the fold buffer.
ghost use Rattle.std.specs.Prelude.{◌≡◌, ◌*◌, ◌^◌, ◌≤◌, map, length};
ghost use Rattle.commit.specs.Opening.{piece};
ghost use Rattle.multilinear.specs.Tables.{value};
ghost use Rattle.verifier.specs.Powers.{with_all};
ghost use Rattle.verifier.specs.Rows.{rows_of, elements, row_values, Complete};

use crate::powers::Powers;
use commit::view::piece;
use field::{BaseField, ExtensionField};
use multilinear::evaluation::evaluate;
use multilinear::point::Point;

/// Rows that a proof opens, one after another: of the base (the initial commitment's) or of the extension (every later one's).
#[derive(Clone, Copy, PartialEq, Eq, Debug)]
pub enum OpenedRows<'a, F, E> {
    Base(&'a [F]),
    Extension(&'a [E]),
}

/// What a phase opens: how many rows, the rows, and the nodes of their paths.
#[derive(Clone, Copy, PartialEq, Eq, Debug)]
pub struct Opened<'a, F, E, N> {
    pub count: usize,
    pub rows: OpenedRows<'a, F, E>,
    pub paths: &'a [N],
}

// Elements of the base, embedded, into as many places.
fn embed_all<F: BaseField, E: ExtensionField<F>>(elements: &[F], places: &mut [E])
    ensures embeds { length elements.now ≡ length places.old → places.new ≡ map E.ExtensionField.extension.embed elements.now }
    ensures long { length places.new ≡ length places.old }
{
    // Kept: by an index: after a loop over a zip of `iter_mut` no element that was written is known.
    for (j, place) in places.iter_mut().enumerate() {
        if let Some(element) = elements.get(j) {
            *place = E::embed(*element);
        }
    }
}

// How many values a table of so many variables has; no more than there is room for.
fn table_size(variables: usize, room: usize) -> usize
    requires { 2 ^ variables ≤ room }
    ensures { result ≡ 2 ^ variables }
{
    room.min(1 << variables)
}

impl<'a, F: BaseField, E: ExtensionField<F>> OpenedRows<'a, F, E> {
    // A row, in the extension, into as many places as it is wide.
    fn copy_row(&self, row: usize, places: &mut [E])
        ensures copies { length (piece (elements E.ExtensionField.extension (rows_of self.now)) (length places.old) row) ≡ length places.old → places.new ≡ piece (elements E.ExtensionField.extension (rows_of self.now)) (length places.old) row }
        ensures long { length places.new ≡ length places.old }
    {
        match self {
            OpenedRows::Base(base) => embed_all(piece(base, places.len(), row), places),
            OpenedRows::Extension(extension) => {
                let elements = piece(extension, places.len(), row);
                if elements.len() == places.len() {
                    places.copy_from_slice(elements);
                }
            }
        }
    }

    // A row's value at a point, worked out in the front of the fold buffer.
    pub(crate) fn row_value(&self, row: usize, point: &Point<E>, fold: &mut [E]) -> E
        requires room { 2 ^ length point.now ≤ length fold.old }
        requires there { length (piece (elements E.ExtensionField.extension (rows_of self.now)) (2 ^ length point.now) row) ≡ 2 ^ length point.now }
        ensures value { result ≡ value E.Field.ops (piece (elements E.ExtensionField.extension (rows_of self.now)) (2 ^ length point.now) row) point.now }
        ensures long { length fold.new ≡ length fold.old }
    {
        let width = table_size(point.len(), fold.len());
        let places = &mut fold[..width];
        self.copy_row(row, places);
        evaluate(places, point).unwrap_or(E::zero())
    }

    // The values of so many rows more, each by its power.
    pub(crate) fn with_rows(
        &self,
        count: usize,
        point: &Point<E>,
        fold: &mut [E],
        powers: Powers<E>,
    ) -> Powers<E>
        requires room { 2 ^ length point.now ≤ length fold.old }
        requires there { Complete count (2 ^ length point.now) (elements E.ExtensionField.extension (rows_of self.now)) }
        ensures values { result ≡ with_all E.Field.ops powers (row_values E.Field.ops (2 ^ length point.now) point.now count (elements E.ExtensionField.extension (rows_of self.now))) }
        ensures long { length fold.new ≡ length fold.old }
    {
        let mut powers = powers;
        for row in 0..count {
            powers = powers.with(self.row_value(row, point, fold));
        }
        powers
    }
}
