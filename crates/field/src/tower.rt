ghost use Rattle.std.specs.Prelude.{◌≡◌};
ghost use Rattle.field.specs.Tower.{pair_ops};
ghost use Rattle.field.specs.Pairs.{pair_field, pair_same};

use crate::Field;
use crate::pair::Pair;

impl<F: Field> Field for Pair<F> {
    ghost ops = { pair_ops F.Field.ops };

    ghost lawful = { pair_field F.Field.lawful };

    ghost same = { pair_same F.PartialEq.eq F.Field.same };

    fn zero() -> Pair<F> {
        Pair {
            a: F::zero(),
            b: F::zero(),
        }
    }

    fn one() -> Pair<F> {
        Pair {
            a: F::one(),
            b: F::zero(),
        }
    }

    fn nonresidue() -> Pair<F> {
        Pair {
            a: F::zero(),
            b: F::one(),
        }
    }

    fn imaginary() -> Pair<F> {
        Pair {
            a: F::imaginary(),
            b: F::zero(),
        }
    }

    fn add(self, other: Pair<F>) -> Pair<F> {
        Pair {
            a: self.a.add(other.a),
            b: self.b.add(other.b),
        }
    }

    fn sub(self, other: Pair<F>) -> Pair<F> {
        Pair {
            a: self.a.sub(other.a),
            b: self.b.sub(other.b),
        }
    }

    fn mul(self, other: Pair<F>) -> Pair<F> {
        let shifted = F::nonresidue().mul(self.b.mul(other.b));
        Pair {
            a: self.a.mul(other.a).add(shifted),
            b: self.a.mul(other.b).add(self.b.mul(other.a)),
        }
    }
}
