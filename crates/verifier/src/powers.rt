// Sums of values weighted by the powers of a challenge.
ghost use Rattle.std.specs.Prelude.{◌≡◌};
ghost use Rattle.verifier.specs.Powers.{with, with_all};

use field::Field;

// A sum so far, the power that the next value is weighted by, and the challenge.
#[derive(Clone, Copy, PartialEq, Eq, Debug)]
pub(crate) struct Powers<E> {
    pub(crate) sum: E,
    pub(crate) power: E,
    pub(crate) challenge: E,
}

impl<E: Field> Powers<E> {
    // A value more.
    pub(crate) fn with(self, value: E) -> Powers<E>
        ensures { result ≡ with E.Field.ops self value }
    {
        Powers {
            sum: self.sum.add(self.power.mul(value)),
            power: self.power.mul(self.challenge),
            challenge: self.challenge,
        }
    }

    // More values, in order.
    pub(crate) fn with_all(self, values: &[E]) -> Powers<E>
        ensures { result ≡ with_all E.Field.ops self values.now }
    {
        let mut powers = self;
        for value in values {
            powers = powers.with(*value);
        }
        powers
    }
}
