// Decimal numbers.
ghost use Rattle.std.specs.Prelude.{◌≡◌, min};
ghost use Rattle.std.specs.Option.{option_map};
ghost use Rattle.text.specs.Number.{decimal_of, largest};

// The number that a word of decimal digits is, or the largest that there is room for where it is larger still; nothing
// for any other word.
pub fn number(word: &[u8]) -> Option<u64>
    ensures { result ≡ option_map (min largest) (decimal_of word.now) }
{
    if word.is_empty() {
        return None;
    }
    let mut value: u64 = 0;
    for byte in word {
        let digit = char::from(*byte).to_digit(10)?;
        value = value.saturating_mul(10).saturating_add(u64::from(digit));
    }
    Some(value)
}

// The number that a text is, by the same rule.
pub fn parse(word: &str) -> Option<usize>
    ensures { result ≡ option_map (min largest) (decimal_of word.now) }
{
    number(word.as_bytes()).map(|n| n as usize)
}
