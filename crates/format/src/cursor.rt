// A cursor: what is left of a text. Each function reads a part from the front of it, or says what should have stood there.
ghost use Rattle.std.specs.Prelude.{◌≡◌, ◌^◌, ◌-◌, ◌≤◌, min, length, drop, if◌then◌else◌};
ghost use Rattle.format.specs.Reading.{Gives, plain, begins, digit_count, value_after, blank, line_end, the_word, the_key, number, next_number};

use crate::errors::{Expected, Fault};
use crate::keys::Key;
use std::alloc::Global;

#[derive(Drop)]
pub struct Cursor<'a, H = Global> {
    // What the lists that are read are made with. Where none is read, any value serves, as `()`.
    pub heap: H,

    // The bytes left.
    pub rest: &'a [u8],
}

// How many digits a text begins with.
pub fn digit_count(text: &[u8]) -> usize
    ensures count { result ≡ digit_count text.now }
    ensures fits { result ≤ length text.now }
{
    text.iter().take_while(|byte| byte.is_ascii_digit()).count()
}

// The number that digits are, as far as there is room for it.
fn value_of(digits: &[u8]) -> u128
    ensures { result ≡ min (2 ^ 128 - 1) (value_after 0 digits.now) }
{
    digits.iter().fold(0, |value: u128, digit| {
        value
            .saturating_mul(10)
            .saturating_add(u128::from(digit.saturating_sub(b'0')))
    })
}

impl<'a, H> Cursor<'a, H> {
    // Whether this word stands here; if it does, the cursor goes past it.
    pub fn takes(&mut self, word: &[u8]) -> bool
        ensures test { result ≡ begins word.now self.old.rest.now }
        ensures rest { self.new.rest.now ≡ (if result then drop (length word.now) self.old.rest.now else self.old.rest.now) }
    {
        let Some(rest) = self.rest.strip_prefix(word) else {
            return false;
        };
        self.rest = rest;
        true
    }

    // The bytes of a word.
    #[tactic(auto, unfolding(crate::specs::Reading::the_word))]
    pub fn word(&mut self, word: &[u8], expected: Expected) -> Result<(), Fault>
        ensures { Gives plain (the_word word.now expected self.old.rest.now) result self.new.rest.now }
    {
        if !self.takes(word) {
            return Err(Fault::Syntax(expected));
        }
        Ok(())
    }

    // The key word of a line.
    pub fn key(&mut self, key: Key) -> Result<(), Fault>
        ensures { Gives plain (the_key key self.old.rest.now) result self.new.rest.now }
    {
        self.word(key.word().as_bytes(), Expected::Word(key))
    }

    // The blank between two words.
    pub fn blank(&mut self) -> Result<(), Fault>
        ensures { Gives plain (blank self.old.rest.now) result self.new.rest.now }
    {
        self.word(b" ", Expected::Blank)
    }

    // The line feed that ends a line.
    pub fn end_of_line(&mut self) -> Result<(), Fault>
        ensures { Gives plain (line_end self.old.rest.now) result self.new.rest.now }
    {
        self.word(b"\n", Expected::LineEnd)
    }

    // A number: all the digits that stand here, at least one, and less than 2^64.
    #[tactic(auto, unfolding(crate::specs::Reading::number))]
    pub fn number(&mut self) -> Result<usize, Fault>
        ensures { Gives plain (number self.old.rest.now) result self.new.rest.now }
    {
        let (digits, behind) = self.rest.split_at(digit_count(self.rest));
        if digits.is_empty() {
            return Err(Fault::Syntax(Expected::Number));
        }
        let value = usize::try_from(value_of(digits)).map_err(|_| Fault::Syntax(
            Expected::NumberBelow64Bits,
        ))?;
        self.rest = behind;
        Ok(value)
    }

    // A blank, and a number behind it.
    #[tactic(auto, unfolding(crate::specs::Reading::next_number, crate::specs::Reading::then))]
    pub fn next_number(&mut self) -> Result<usize, Fault>
        ensures { Gives plain (next_number self.old.rest.now) result self.new.rest.now }
    {
        self.blank()?;
        self.number()
    }
}
