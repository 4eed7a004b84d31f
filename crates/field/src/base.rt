ghost use Rattle.std.specs.Prelude.{◌≡◌, ℕ, ◌+◌, ◌-◌, ◌*◌, ◌<◌, if◌then◌else◌, Some, None, nat_lt};
ghost use Rattle.field.specs.Residues.{reduce, residue_ops, residue_numbering};
ghost use Rattle.field.specs.Primes.{IsFermatPrime, prime_field, prime_numbers, prime_257, prime_65537};
ghost use Rattle.field.specs.ResiduesLemmas.{residue_same};

use crate::residue::Residue;
use crate::{BaseField, Field};

// A prime P = 1 + 2^EXPONENT, with ROOT, whose square is minus one modulo P.
pub trait FermatPrime<const P: u32> {
    ghost EXPONENT: { ℕ };

    ghost ROOT: { ℕ };

    ghost prime: { IsFermatPrime P EXPONENT ROOT };

    const EXPONENT: usize;

    const ROOT: u32;
}

impl FermatPrime<257> for Residue<257> {
    ghost EXPONENT = { 8 };

    ghost ROOT = { 16 };

    ghost prime = { prime_257 };

    const EXPONENT: usize = 8;

    const ROOT: u32 = 16;
}

impl FermatPrime<65537> for Residue<65537> {
    ghost EXPONENT = { 16 };

    ghost ROOT = { 256 };

    ghost prime = { prime_65537 };

    const EXPONENT: usize = 16;

    const ROOT: u32 = 256;
}

impl<const P: u32> Field for Residue<P>
where
    Residue<P>: FermatPrime<P>,
{
    ghost ops = { residue_ops P ⟦<Residue<P> as FermatPrime<P>>⟧.prime.positive 3 ⟦<Residue<P> as FermatPrime<P>>⟧.ROOT };

    ghost lawful = { prime_field ⟦<Residue<P> as FermatPrime<P>>⟧.prime };

    ghost same = { residue_same };

    fn zero() -> Residue<P> {
        reduced(0)
    }

    fn one() -> Residue<P> {
        reduced(1)
    }

    fn nonresidue() -> Residue<P> {
        reduced(3)
    }

    fn imaginary() -> Residue<P> {
        reduced(<Residue<P> as FermatPrime<P>>::ROOT)
    }

    // The sum is below twice the modulus.
    fn add(self, other: Residue<P>) -> Residue<P> {
        let total = self.value as u64 + other.value as u64;
        let modulus = P as u64;
        let value = if total < modulus {
            total
        } else {
            total - modulus
        };
        Residue {
            value: value as u32,
        }
    }

    fn sub(self, other: Residue<P>) -> Residue<P> {
        let value = if other.value <= self.value {
            self.value - other.value
        } else {
            P - (other.value - self.value)
        };
        Residue { value }
    }

    // A product h (P - 1) + l is h P + (l - h). P - 1 is a power of two, so nothing is divided.
    fn mul(self, other: Residue<P>) -> Residue<P> {
        let whole = self.value as u64 * other.value as u64;
        let power = P as u64 - 1;
        let high = whole / power;
        let low = whole % power;
        let value = if high <= low {
            low - high
        } else {
            low + P as u64 - high
        };
        Residue {
            value: value as u32,
        }
    }
}

impl<const P: u32> BaseField for Residue<P>
where
    Residue<P>: FermatPrime<P>,
{
    ghost numbering = { residue_numbering P ⟦<Residue<P> as FermatPrime<P>>⟧.prime.positive };

    ghost numbered = { prime_numbers ⟦<Residue<P> as FermatPrime<P>>⟧.prime };

    fn modulus() -> u32 {
        P
    }

    // Kept: by `if`: the struct holds that the value is below P, so it is made behind the test, and of `(value < P).then(|| Residue { value })` the
    // check says "the borrow checker does not cover this function yet: a call of `core::bool::then`".
    fn new(value: u32) -> Option<Residue<P>> {
        if value < P {
            Some(Residue { value })
        } else {
            None
        }
    }

    fn from_word(word: u32) -> Residue<P> {
        reduced(word)
    }

    fn number(self) -> u32 {
        self.value
    }
}

fn reduced<const P: u32>(word: u32) -> Residue<P>
    requires { 0 < P }
    ensures { (h : 0 < P) → result ≡ reduce P h word }
{
    Residue { value: word % P }
}
