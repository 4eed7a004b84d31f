ghost use Rattle.std.specs.Prelude.{◌≡◌, slice_index_or, slice_set};
ghost use Rattle.field.specs.Tower.{pair_ops};
ghost use Rattle.field.specs.Extension.{itself, doubled};
ghost use Rattle.field.specs.Towers.{over_itself, one_step, two_steps, three_steps, sized_1, sized_2, sized_4, sized_8};

use crate::pair::Pair;
use crate::{ExtensionField, Field};

impl<F: Field> ExtensionField<F> for F {
    ghost extension = { itself F.Field.ops };

    ghost extends = { over_itself F.Field.lawful };

    ghost sized = { sized_1 };

    fn embed(x: F) -> F {
        x
    }

    fn degree() -> usize {
        1
    }

    fn coefficient(self, index: usize) -> F {
        if index == 0 { self } else { F::zero() }
    }

    fn with_coefficient(self, index: usize, x: F) -> F {
        if index == 0 { x } else { self }
    }
}

// Kept: one block for Pair<E> over any extension E would overlap with the block above, and would have no largest degree.
impl<F: Field> ExtensionField<F> for Pair<F> {
    ghost extension = { doubled F.Field.ops (itself F.Field.ops) };

    ghost extends = { one_step F.Field.lawful };

    ghost sized = { sized_2 };

    fn embed(x: F) -> Pair<F> {
        embed_pair(x)
    }

    fn degree() -> usize {
        2
    }

    fn coefficient(self, index: usize) -> F {
        pair_coefficient(self, index)
    }

    fn with_coefficient(self, index: usize, x: F) -> Pair<F> {
        pair_with_coefficient(self, index, x)
    }
}

impl<F: Field> ExtensionField<F> for Pair<Pair<F>> {
    ghost extension = { doubled (pair_ops F.Field.ops) (doubled F.Field.ops (itself F.Field.ops)) };

    ghost extends = { two_steps F.Field.lawful };

    ghost sized = { sized_4 };

    fn embed(x: F) -> Pair<Pair<F>> {
        embed_pair(x)
    }

    fn degree() -> usize {
        4
    }

    fn coefficient(self, index: usize) -> F {
        pair_coefficient(self, index)
    }

    fn with_coefficient(self, index: usize, x: F) -> Pair<Pair<F>> {
        pair_with_coefficient(self, index, x)
    }
}

impl<F: Field> ExtensionField<F> for Pair<Pair<Pair<F>>> {
    ghost extension = { doubled (pair_ops (pair_ops F.Field.ops)) (doubled (pair_ops F.Field.ops) (doubled F.Field.ops (itself F.Field.ops))) };

    ghost extends = { three_steps F.Field.lawful };

    ghost sized = { sized_8 };

    fn embed(x: F) -> Pair<Pair<Pair<F>>> {
        embed_pair(x)
    }

    fn degree() -> usize {
        8
    }

    fn coefficient(self, index: usize) -> F {
        pair_coefficient(self, index)
    }

    fn with_coefficient(self, index: usize, x: F) -> Pair<Pair<Pair<F>>> {
        pair_with_coefficient(self, index, x)
    }
}

// slope x + offset, with the slope in the base field.
pub fn on_line<F: Field, E: ExtensionField<F>>(slope: F, x: E, offset: E) -> E
    ensures { result ≡ E.Field.ops.add (E.Field.ops.mul (E.ExtensionField.extension.embed slope) x) offset }
{
    E::embed(slope).mul(x).add(offset)
}

fn embed_pair<F: Field, E: ExtensionField<F>>(x: F) -> Pair<E>
    ensures { result ≡ (doubled E.Field.ops E.ExtensionField.extension).embed x }
{
    Pair {
        a: E::embed(x),
        b: E::zero(),
    }
}

fn pair_coefficient<F: Field, E: ExtensionField<F>>(y: Pair<E>, index: usize) -> F
    ensures { result ≡ slice_index_or ((doubled E.Field.ops E.ExtensionField.extension).coefficients y) index F.Field.ops.zero }
{
    let half = E::degree();
    if index < half {
        y.a.coefficient(index)
    } else {
        y.b.coefficient(index - half)
    }
}

fn pair_with_coefficient<F: Field, E: ExtensionField<F>>(y: Pair<E>, index: usize, x: F) -> Pair<E>
    ensures { (doubled E.Field.ops E.ExtensionField.extension).coefficients result ≡ slice_set ((doubled E.Field.ops E.ExtensionField.extension).coefficients y) index x }
{
    let half = E::degree();
    if index < half {
        Pair {
            a: y.a.with_coefficient(index, x),
            b: y.b,
        }
    } else {
        Pair {
            a: y.a,
            b: y.b.with_coefficient(index - half, x),
        }
    }
}
