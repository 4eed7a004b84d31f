ghost use Rattle.std.specs.Prelude.{◌≡◌};
ghost use Rattle.field.specs.Bytes.{element_bytes, Reads, ReadsNumbers, ReadBack};

use crate::{BaseField, ExtensionField, Field};
use arrayvec::ArrayVec;

// An element's bytes: four a coefficient.
pub fn element_bytes<F: BaseField, E: ExtensionField<F>>(x: E) -> ArrayVec<u8, 32>
    ensures { result.items ≡ element_bytes F.BaseField.numbering E.ExtensionField.extension x }
{
    let mut bytes = ArrayVec::new();
    // Kept: by the coefficients' places, since a function of a trait cannot answer an `impl Iterator`. An iterator outside
    // `ExtensionField` would be `(0..E::degree()).map(|j| x.coefficient(j))`, which goes over the same places.
    for j in 0..E::degree() {
        let word = x.coefficient(j).number().to_le_bytes();
        bytes.try_extend_from_slice(&word).unwrap();
    }
    bytes
}

// The element with these bytes; another length, and a coefficient not below the modulus, are refused.
pub fn read_element<F: BaseField, E: ExtensionField<F>>(bytes: &[u8]) -> Option<E>
    ensures { Reads F.BaseField.numbering E.ExtensionField.extension bytes.now result }
{
    if bytes.len() != 4 * E::degree() {
        return None;
    }
    let mut numbers = ArrayVec::<u32, 8>::new();
    let (words, _) = bytes.as_chunks::<4>();
    // Kept: a loop: `collect` takes an allocator, and behind `extend(words.iter().map(..))`, which was tried, it stays open that there is room and
    // what was read.
    for word in words {
        numbers.push(u32::from_le_bytes(*word));
    }
    from_numbers::<F, E>(&numbers)
}

// The element whose coefficients are these numbers; another count, and a number not below the modulus, are refused.
pub fn from_numbers<F: BaseField, E: ExtensionField<F>>(numbers: &[u32]) -> Option<E>
    ensures { ReadsNumbers F.BaseField.numbering E.ExtensionField.extension numbers.now result }
{
    if numbers.len() != E::degree() {
        return None;
    }
    let mut y = E::zero();
    for (j, number) in numbers.iter().enumerate() {
        y = y.with_coefficient(j, F::new(*number)?);
    }
    Some(y)
}

// Reading what was written gives it back.
pub fn bytes_read_back<F: BaseField, E: ExtensionField<F>>()
    ensures { ReadBack F.BaseField.numbering E.ExtensionField.extension }
{}
