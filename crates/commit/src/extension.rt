ghost use Rattle.std.specs.Prelude.{◌≡◌, map};
ghost use Rattle.commit.specs.Spread.{spread, extended};
ghost use Rattle.commit.specs.SpreadLaws.{some_degree, extended_laws};

use crate::view::Coefficients;
use crate::{OpeningScheme, Places, Rows};
use arrayvec::ArrayVec;
use field::{ExtensionField, Field};
use std::marker::PhantomData;

/// A scheme for rows of base elements, as a scheme for rows of an extension's elements.
#[derive_where(Clone, Copy)]
pub struct ExtensionScheme<'a, F, E, S> {
    pub inner: &'a S,
    base: PhantomData<F>,
    extension: PhantomData<E>,
}

impl<'a, F, E, S> ExtensionScheme<'a, F, E, S> {
    pub fn new(inner: &'a S) -> Self
        ensures { result.inner.now ≡ inner.now }
    {
        ExtensionScheme {
            inner,
            base: PhantomData,
            extension: PhantomData,
        }
    }
}

impl<'a, F: Field, E: ExtensionField<F>, S: OpeningScheme<F>> OpeningScheme<E>
    for ExtensionScheme<'a, F, E, S> {
    type Commitment = S::Commitment;

    type Node = S::Node;

    ghost meaning = { λ s. extended E.ExtensionField.extension (S.OpeningScheme.meaning s.inner.now) };

    ghost commits = { λ s c matrix. S.OpeningScheme.commits s.inner.now c (map (spread E.ExtensionField.extension) matrix) };

    ghost laws = { λ s. extended_laws E.ExtensionField.extension E.ExtensionField.extends.count (some_degree E.ExtensionField.sized) E.ExtensionField.extends.settled (S.OpeningScheme.meaning s.inner.now) (S.OpeningScheme.commits s.inner.now) (S.OpeningScheme.laws s.inner.now) };

    fn check<R: Rows<E>>(
        &self,
        commitment: &S::Commitment,
        places: &Places<S::Node>,
        rows: &R,
    ) -> bool {
        let coefficients = Coefficients {
            rows,
            extension: PhantomData,
        };
        self.inner.check(commitment, places, &coefficients)
    }

    fn commitment_bytes(&self, commitment: &S::Commitment) -> ArrayVec<u8, 32> {
        self.inner.commitment_bytes(commitment)
    }
}
