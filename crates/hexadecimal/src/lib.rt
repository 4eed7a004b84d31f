//! Byte strings in hexadecimal.
#![tactic(auto)]

ghost use Rattle.std.specs.Prelude.{◌≡◌, IfOk, vec_items};
ghost use Rattle.std.specs.Option.{option_map};
ghost use Rattle.hexadecimal.specs.Hex.{digit_value, byte_value, spelled};

use std::alloc::{AllocError, Global};

// The value of a digit.
fn digit(c: u8) -> Option<u8>
    ensures { result ≡ digit_value c }
{
    match c {
        b'0'..=b'9' => Some(c - b'0'),
        b'a'..=b'f' => Some(c - b'a' + 10),
        _ => None,
    }
}

// The byte of two digits.
fn byte(high: u8, low: u8) -> Option<u8>
    ensures { result ≡ byte_value (digit_value high) (digit_value low) }
{
    Some(16 * digit(high)? + digit(low)?)
}

/// The bytes that a text spells, or nothing if it spells none: digits in lower case, two to a byte,
/// and `-` for no bytes.
#[tactic(auto, using(crate::proofs::Spells::many_spelled, crate::proofs::Spells::two_left))]
pub fn from_hex(heap: Global, text: &str) -> Result<Option<Vec<u8>>, AllocError>
    ensures { IfOk result (λ o. option_map vec_items o ≡ spelled text.now) }
{
    let mut bytes = Vec::new(heap);
    if text == "-" {
        return Ok(Some(bytes));
    }
    // Kept: std says nothing yet of what `collect` into an `Option` answers, so that the clause was not proved; `try_collect` would need
    // an error of two kinds, no digit and no memory, only to be taken apart behind it.
    for pair in text.as_bytes().chunks(2) {
        let [high, low] = pair else {
            return Ok(None);
        };
        let Some(b) = byte(*high, *low) else {
            return Ok(None);
        };
        bytes.push(b)?;
    }
    Ok(Some(bytes))
}
