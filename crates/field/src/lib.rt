#![tactic(auto)]

ghost use Rattle.std.specs.Prelude.{◌≡◌, ◌↔◌, true, if◌then◌else◌, Some, None, nat_lt, slice_index_or, slice_set};
ghost use Rattle.ring.specs.Ring.{Ops};
ghost use Rattle.field.specs.Laws.{IsField};
ghost use Rattle.field.specs.Numbers.{Numbering, Numbers};
ghost use Rattle.field.specs.Extension.{Extension, Extends, Sized};

pub mod base;
pub mod bytes;
pub mod extension;
pub mod pair;
pub mod residue;
pub mod theorems;
pub mod tower;

// Operations that are those of a field, with s, of which no element is the square, and i, whose square is minus one.
pub trait Field: Copy + Eq {
    ghost ops: { Ops Self };

    fn zero() -> Self
        ensures { result ≡ ops.zero };

    fn one() -> Self
        ensures { result ≡ ops.one };

    fn nonresidue() -> Self
        ensures { result ≡ ops.s };

    fn imaginary() -> Self
        ensures { result ≡ ops.i };

    fn add(self, other: Self) -> Self
        ensures { result ≡ ops.add self other };

    fn sub(self, other: Self) -> Self
        ensures { result ≡ ops.sub self other };

    fn mul(self, other: Self) -> Self
        ensures { result ≡ ops.mul self other };

    ghost lawful: { IsField ops };

    // Elements are equal where `==` says so.
    ghost same: { (x y : Self) → (Self.PartialEq.eq x y ≡ true) ↔ (x ≡ y) };
}

// A field whose elements are the numbers below a modulus.
pub trait BaseField: Field {
    ghost numbering: { Numbering Self };

    fn modulus() -> u32
        ensures { result ≡ numbering.modulus };

    // The element that is this number; a number that is not below the modulus is refused.
    fn new(value: u32) -> Option<Self>
        ensures { result ≡ (if nat_lt value numbering.modulus then Some (numbering.residue value) else None) };

    // The element that a word is modulo the modulus.
    fn from_word(word: u32) -> Self
        ensures { result ≡ numbering.residue word };

    fn number(self) -> u32
        ensures { result ≡ numbering.number self };

    ghost numbered: { Numbers Self.Field.ops numbering };
}

// A field that lies over the base field F.
pub trait ExtensionField<F: Field>: Field {
    ghost extension: { Extension F Self };

    fn embed(x: F) -> Self
        ensures { result ≡ extension.embed x };

    fn degree() -> usize
        ensures { result ≡ extension.degree };

    // The coefficient at an index, and zero past the last.
    fn coefficient(self, index: usize) -> F
        ensures { result ≡ slice_index_or (extension.coefficients self) index F.Field.ops.zero };

    // The same element with another coefficient at an index; past the last nothing changes.
    fn with_coefficient(self, index: usize, x: F) -> Self
        ensures { extension.coefficients result ≡ slice_set (extension.coefficients self) index x };

    ghost extends: { Extends F.Field.ops Self.Field.ops extension };

    ghost sized: { Sized extension.degree };
}
