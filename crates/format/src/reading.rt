// A configuration in a file: alone, or inside a whole case.
ghost use Rattle.std.specs.Prelude.{◌≡◌};
ghost use Rattle.format.specs.Files.{from_line, line_feeds, line_of, Answers};
ghost use Rattle.format.specs.Written.{ReadsBack, WrittenApart};

use crate::cursor::Cursor;
use crate::errors::ReadError;
use crate::keys::Key;
use configuration::whir_parameters::WhirNumbers;
use std::alloc::Global;

// How many line feeds a text has.
fn line_feeds(text: &[u8]) -> usize
    ensures { result ≡ line_feeds text.now }
{
    text.iter().filter(|byte| **byte == b'\n').count()
}

// The line, counted from 1, on which what is left of a text begins.
pub fn line_of(text: &[u8], rest: &[u8]) -> usize
    ensures { result ≡ line_of text.now rest.now }
{
    line_feeds(text)
        .saturating_sub(line_feeds(rest))
        .saturating_add(1)
}

// The text from the first line that begins with the word.
pub fn from_line<'a>(text: &'a [u8], word: &[u8]) -> &'a [u8]
    ensures { result.now ≡ from_line word.now text.now }
{
    if text.starts_with(word) {
        return text;
    }
    let mut rest = text;
    while let [byte, behind @ ..] = rest {
        if *byte == b'\n' && behind.starts_with(word) {
            return behind;
        }
        rest = behind;
    }
    rest
}

// The numbers of the configuration that a text has: from the line that begins with the word `num_variables`, to the last line of the
// configuration. What comes before and behind is not looked at.
#[tactic(auto, unfolding(crate::specs::Files::outcome))]
pub fn read_configuration(heap: Global, text: &[u8]) -> Result<WhirNumbers, ReadError>
    ensures { Answers result text.now }
{
    let rest = from_line(text, Key::NumVariables.word().as_bytes());
    let mut cursor = Cursor { heap, rest };
    cursor
        .configuration()
        .map_err(|fault| fault.on_line(line_of(text, cursor.rest)))
}

// Reading what is written of a configuration gives its numbers back, so that no two configurations share a text.
#[tactic(auto, using(crate::proofs::Written::reads_back, crate::proofs::Written::written_apart))]
pub fn configurations_read_back()
    ensures back { ReadsBack }
    ensures apart { WrittenApart }
{}
