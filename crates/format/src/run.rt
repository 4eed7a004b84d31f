// What a run's separator is made of, in a file.
ghost use Rattle.std.specs.Prelude.{◌≡◌};
ghost use Rattle.format.specs.Reading.{Gives};
ghost use Rattle.format.specs.Runs.{run_of, run_lines, AnswersRun};

use crate::cursor::Cursor;
use crate::errors::{Fault, ReadError};
use crate::keys::Key;
use crate::numbers::RunNumbers;
use crate::reading::{from_line, line_of};
use std::alloc::Global;

impl<'a> Cursor<'a> {
    // The degree of the extension, the numbers of the configuration, wherever its lines begin behind that, and right behind them the number
    // of opening claims.
    #[tactic(auto, unfolding(crate::specs::Runs::run_lines, crate::specs::Reading::then))]
    pub fn run(&mut self) -> Result<RunNumbers, Fault>
        ensures { Gives run_of (run_lines self.old.rest.now) result self.new.rest.now }
    {
        let degree = self.line_with(Key::Degree)?;
        self.rest = from_line(self.rest, Key::NumVariables.word().as_bytes());
        Ok(RunNumbers {
            degree,
            numbers: self.configuration()?,
            num_opening_claims: self.line_with(Key::NumOpeningClaims)?,
        })
    }
}

// The numbers of a run that a text has, from the line that begins with the word `degree` on. What comes before and behind is not looked at,
// and neither is what stands between that line and the configuration.
#[tactic(auto, unfolding(crate::specs::Runs::run_outcome))]
pub fn read_run(heap: Global, text: &[u8]) -> Result<RunNumbers, ReadError>
    ensures { AnswersRun result text.now }
{
    let rest = from_line(text, Key::Degree.word().as_bytes());
    let mut cursor = Cursor { heap, rest };
    cursor
        .run()
        .map_err(|fault| fault.on_line(line_of(text, cursor.rest)))
}
