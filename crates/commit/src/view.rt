ghost use Rattle.std.specs.Prelude.{◌≡◌, ℕ, ◌-◌, ◌*◌, ◌^◌, ◌≤◌, List, [], ◌∷◌, ◌++◌, length, take, drop, ◌==◌};
ghost use Rattle.commit.specs.Opening.{piece};
ghost use Rattle.commit.specs.Spread.{spread};

use crate::{Rows, Sink};
use field::{ExtensionField, Field};
use std::marker::PhantomData;

// Kept: rows are lent in one flat slice with their width: a list of slices, one for each row, would have to be gathered first, and
// nothing is allocated while an opening is checked.
/// Rows that stand one after another in a slice.
#[derive(Clone, Copy, PartialEq, Eq, Debug)]
pub struct Flat<'a, X> {
    pub elements: &'a [X],
    pub width: usize,
}

impl<'a, X: Copy> Rows<X> for Flat<'a, X> {
    ghost wide = { λ s. s.width };

    ghost flat = { λ s. s.elements.now };

    fn count_is(&self, count: usize) -> bool {
        fits(self.elements.len(), count, self.width)
    }

    fn width_is(&self, width: usize) -> bool {
        self.width == width
    }

    fn feed<K: Sink<X>>(&self, row: usize, mut sink: K) -> K {
        for element in piece(self.elements, self.width, row) {
            sink.put(*element);
        }
        sink
    }
}

/// What stands in a list from a start on, so many elements; past the end there is less of it, or nothing.
pub fn part<X>(list: &[X], start: usize, count: usize) -> &[X]
    ensures part { result.now ≡ take count (drop start list.now) }
    ensures counted { length list.now ≤ 2 ^ 64 - 1 }
{
    let rest = list.get(start..).unwrap_or(&[]);
    &rest[..count.min(rest.len())]
}

/// The row at an index among rows that stand one after another in a list.
pub fn piece<X>(list: &[X], width: usize, index: usize) -> &[X]
    ensures { result.now ≡ piece list.now width index }
{
    part(list, index.saturating_mul(width), width)
}

/// Is a length that of so many rows of that width?
pub fn fits(length: usize, count: usize, width: usize) -> bool
    ensures { result ≡ (length == count * width) }
{
    count.checked_mul(width) == Some(length)
}

/// Takes an extension's elements and gives their coefficients to a sink for base elements.
pub struct Spreading<F, E, K> {
    sink: K,
    base: PhantomData<F>,
    extension: PhantomData<E>,
}

impl<F: Field, E: ExtensionField<F>, K: Sink<F>> Sink<E> for Spreading<F, E, K> {
    ghost fed = { λ s es t. (k : K) (xs : List F) → K.Sink.fed k xs s.sink → K.Sink.fed k (xs ++ spread E.ExtensionField.extension es) t.sink };

    fn put(&mut self, element: E) {
        // Kept: a loop over the range; of a sink that the closure of `for_each` changes nothing is known after it, and `fold` would have to
        // move the sink out of `self`.
        for j in 0..E::degree() {
            self.sink.put(element.coefficient(j));
        }
    }
}

/// Rows of an extension's elements, as rows of their coefficients.
#[derive(Clone, Copy)]
pub struct Coefficients<'a, E, R> {
    pub rows: &'a R,
    pub extension: PhantomData<E>,
}

impl<'a, F: Field, E: ExtensionField<F>, R: Rows<E>> Rows<F> for Coefficients<'a, E, R> {
    ghost wide = { λ s. R.Rows.wide s.rows.now * E.ExtensionField.extension.degree };

    ghost flat = { λ s. spread E.ExtensionField.extension (R.Rows.flat s.rows.now) };

    fn count_is(&self, count: usize) -> bool {
        self.rows.count_is(count)
    }

    fn width_is(&self, width: usize) -> bool {
        width % E::degree() == 0 && self.rows.width_is(width / E::degree())
    }

    fn feed<K: Sink<F>>(&self, row: usize, sink: K) -> K {
        let spreading = Spreading {
            sink,
            base: PhantomData,
            extension: PhantomData,
        };
        let Spreading {
            sink,
            base: _,
            extension: _,
        } = self.rows.feed(row, spreading);
        sink
    }
}
