// Fields with elements of every order 2^k up to a largest k, and powers by squaring.
ghost use Rattle.std.specs.Prelude.{◌≡◌, ℕ, ◌-◌, ◌^◌, ◌<◌, ◌≤◌, if◌then◌else◌, Ok, Err, nat_le, slice_index_or};
ghost use Rattle.multilinear.specs.Univariate.{pow, expand};
ghost use Rattle.domain.specs.declared.query.Limit.TheVariants.{OutOfDomain};
ghost use Rattle.domain.specs.Subgroup.{TwoAdic, generator};
ghost use Rattle.domain.specs.Readings.{Generators};
ghost use Rattle.domain.specs.TwoAdicity.{prime_order};

use crate::query::Limit;
use field::base::FermatPrime;
use field::residue::Residue;
use field::{BaseField, Field};

// A base field in which 3 has order 2^c, c being its two-adicity.
pub trait TwoAdicField: BaseField {
    ghost adicity: { ℕ };

    fn two_adicity() -> usize
        ensures { result ≡ adicity };

    ghost order: { TwoAdic Self.Field.ops Self.BaseField.numbering adicity };
}

impl<const P: u32> TwoAdicField for Residue<P>
where
    Residue<P>: FermatPrime<P>,
{
    ghost adicity = { ⟦<Residue<P> as FermatPrime<P>>⟧.EXPONENT };

    ghost order = { prime_order ⟦<Residue<P> as FermatPrime<P>>⟧.prime };

    fn two_adicity() -> usize {
        <Residue<P> as FermatPrime<P>>::EXPONENT
    }
}

// The power of an element, by squaring: two products for each binary digit of the exponent.
pub fn exp<F: Field>(base: F, exponent: usize) -> F
    ensures { result ≡ pow F.Field.ops base exponent }
{
    let mut power = F::one();
    let mut square = base;
    let mut left = exponent;
    while left > 0 {
        if left % 2 == 1 {
            power = power.mul(square);
        }
        square = square.mul(square);
        left /= 2;
    }
    power
}

// The element after so many squarings.
fn squared<F: Field>(base: F, times: usize) -> F
    requires { times ≤ 16 }
    ensures { result ≡ pow F.Field.ops base (2 ^ times) }
{
    exp(base, 1 << times)
}

// The element of order 2^bits that is a power of 3.
pub fn two_adic_generator<F: TwoAdicField>(bits: usize) -> Result<F, Limit>
    ensures { result ≡ (if nat_le bits F.TwoAdicField.adicity then Ok (generator F.Field.ops F.BaseField.numbering F.TwoAdicField.adicity bits) else Err OutOfDomain) }
{
    if bits > F::two_adicity() {
        return Err(Limit::OutOfDomain);
    }
    Ok(generator_of(bits))
}

pub(crate) fn generator_of<F: TwoAdicField>(bits: usize) -> F
    requires { bits ≤ F.TwoAdicField.adicity }
    ensures { result ≡ generator F.Field.ops F.BaseField.numbering F.TwoAdicField.adicity bits }
{
    squared(F::from_word(3), F::two_adicity() - bits)
}

// Coordinate j of the point of m coordinates that v stands for.
pub(crate) fn coordinate_of<F: Field>(v: F, m: usize, j: usize) -> F
    requires { (m ≤ 16) × (j < m) }
    ensures { result ≡ slice_index_or (expand F.Field.ops v m) j F.Field.ops.zero }
{
    squared(v, m - 1 - j)
}

// Sample readings of the generators.
pub fn generators_read()
    ensures { Generators }
{}
