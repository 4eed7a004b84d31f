ghost use Rattle.std.specs.Prelude.{◌≡◌};
ghost use Rattle.ring.specs.Polynomials.{value as at};

use field::Field;

// The values weighted by first, first·alpha, first·alpha², .., by Horner's rule from the last value on.
pub fn combine_from<F: Field>(values: &[F], alpha: F, first: F) -> F
    ensures { result ≡ F.Field.ops.mul first (at F.Field.ops values.now alpha) }
{
    let sum = values
        .iter()
        .rev()
        .fold(F::zero(), |sum, v| sum.mul(alpha).add(*v));
    first.mul(sum)
}

// The values weighted by the powers of `alpha`, from the power 0 on.
pub fn combine<F: Field>(values: &[F], alpha: F) -> F
    ensures { result ≡ at F.Field.ops values.now alpha }
{
    combine_from(values, alpha, F::one())
}
