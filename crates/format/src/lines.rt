// The kinds of lines that a configuration has.
ghost use Rattle.std.specs.Prelude.{◌≡◌, ℕ, Bool, List, vec_items};
ghost use Rattle.parameters.specs.Schedule.{Strategy};
ghost use Rattle.parameters.specs.Replies.{strategy_of};
ghost use Rattle.configuration.specs.declared.whir_parameters.RoundConfig.{RoundConfig};
ghost use Rattle.configuration.specs.declared.whir_parameters.TerminalBudget.{TerminalBudget};
ghost use Rattle.format.specs.Reading.{Read, Gives, plain, next_number, each, list_of};
ghost use Rattle.format.specs.Lines.{line, byte_item, flag, line_index, strategy, round, rounds, terminal_of};

use crate::cursor::Cursor;
use crate::errors::{Expected, Fault};
use crate::keys::Key;
use configuration::whir_parameters::{RoundConfig, TerminalBudget};
use parameters::folding::FoldingFactor;
use std::alloc::Global;

// What stands behind the key word of a line.
pub trait Part: Drop + Sized {
    // What a value is to the definitions.
    ghost Shown: { Type 0 };

    ghost shown: { Self → Shown };

    // The definition of how it is read.
    ghost reading: { List ℕ → Read Shown };

    // The value at the front of a text.
    fn read(cursor: &mut Cursor) -> Result<Self, Fault>
        ensures { Gives shown (reading cursor.old.rest.now) result cursor.new.rest.now };
}

// What stands one after another in a list.
pub trait Item: Drop + Sized {
    // The definition of how the item of an index is read.
    ghost item: { ℕ → List ℕ → Read Self };

    // The item of this index, at the front of a text.
    fn read_at(cursor: &mut Cursor, index: usize) -> Result<Self, Fault>
        ensures { Gives plain (item index cursor.old.rest.now) result cursor.new.rest.now };
}

// What stands behind the key word of a line, read by a cursor that makes its lists with an `H`.
pub trait PartWith<H>: Drop + Sized {
    // What a value is to the definitions.
    ghost Shown: { Type 0 };

    ghost shown: { Self → Shown };

    // The definition of how it is read.
    ghost reading: { List ℕ → Read Shown };

    // The value at the front of a text.
    fn read_with(cursor: &mut Cursor<'_, H>) -> Result<Self, Fault>
        ensures { Gives shown (reading cursor.old.rest.now) result cursor.new.rest.now };
}

// What stands one after another in a list, read by a cursor that makes its lists with an `H`.
pub trait ItemWith<H>: Drop + Sized {
    // The definition of how the item of an index is read.
    ghost item: { ℕ → List ℕ → Read Self };

    // The item of this index, at the front of a text.
    fn read_at_with(cursor: &mut Cursor<'_, H>, index: usize) -> Result<Self, Fault>
        ensures { Gives plain (item index cursor.old.rest.now) result cursor.new.rest.now };
}

// Each `PartWith<Global>` is a `Part`, and each `ItemWith<Global>` an `Item`. Both calls only hand on, and are inlined.
impl<P: PartWith<Global>> Part for P {
    ghost Shown = { P.PartWith.Shown };

    ghost shown = { P.PartWith.shown };

    ghost reading = { P.PartWith.reading };

    #[inline(always)]
    fn read(cursor: &mut Cursor) -> Result<P, Fault> {
        P::read_with(cursor)
    }
}

impl<T: ItemWith<Global>> Item for T {
    ghost item = { T.ItemWith.item };

    #[inline(always)]
    fn read_at(cursor: &mut Cursor, index: usize) -> Result<T, Fault> {
        T::read_at_with(cursor, index)
    }
}

// A part as a `PartWith<Global>`, so that `line_with` reads it.
#[derive(Drop)]
struct AsPartWith<P> {
    part: P,
}

impl<P: Part> PartWith<Global> for AsPartWith<P> {
    ghost Shown = { P.Part.Shown };

    ghost shown = { λ whole. P.Part.shown whole.part };

    ghost reading = { P.Part.reading };

    fn read_with(cursor: &mut Cursor) -> Result<AsPartWith<P>, Fault> {
        Ok(AsPartWith {
            part: P::read(cursor)?,
        })
    }
}

// A number, behind a blank.
impl<H> ItemWith<H> for usize {
    ghost item = { λ _. next_number };

    fn read_at_with(cursor: &mut Cursor<'_, H>, _index: usize) -> Result<usize, Fault> {
        cursor.next_number()
    }
}

// A byte, as a number behind a blank.
impl<H> ItemWith<H> for u8 {
    ghost item = { λ _. byte_item };

    #[tactic(auto, unfolding(crate::specs::Lines::byte_item, crate::specs::Reading::then))]
    fn read_at_with(cursor: &mut Cursor<'_, H>, _index: usize) -> Result<u8, Fault> {
        let number = cursor.next_number()?;
        u8::try_from(number).map_err(|_| Fault::Syntax(Expected::Byte))
    }
}

// The line of a round.
impl<H> ItemWith<H> for RoundConfig {
    ghost item = { round };

    #[tactic(auto, unfolding(crate::specs::Lines::round, crate::specs::Reading::numbers_listed, crate::specs::Reading::each, crate::specs::Reading::then))]
    fn read_at_with(cursor: &mut Cursor<'_, H>, index: usize) -> Result<RoundConfig, Fault> {
        cursor.key(Key::Round)?;
        cursor.index(index)?;
        let round = RoundConfig {
            pow_bits: cursor.next_number()?,
            folding_pow_bits: cursor.next_number()?,
            num_queries: cursor.next_number()?,
            ood_samples: cursor.next_number()?,
            num_variables: cursor.next_number()?,
            folding_factor: cursor.next_number()?,
            log_inv_rate: cursor.next_number()?,
            domain_size: cursor.next_number()?,
            log_folded_domain_size: cursor.next_number()?,
        };
        cursor.end_of_line()?;
        Ok(round)
    }
}

// A number, behind a blank.
impl<H> PartWith<H> for usize {
    ghost Shown = { ℕ };

    ghost shown = { plain };

    ghost reading = { next_number };

    fn read_with(cursor: &mut Cursor<'_, H>) -> Result<usize, Fault> {
        cursor.next_number()
    }
}

// One of the two truth values.
impl<H> PartWith<H> for bool {
    ghost Shown = { Bool };

    ghost shown = { plain };

    ghost reading = { flag };

    #[tactic(auto, unfolding(crate::specs::Lines::flag, crate::specs::Reading::then))]
    fn read_with(cursor: &mut Cursor<'_, H>) -> Result<bool, Fault> {
        match cursor.next_number()? {
            0 => Ok(false),
            1 => Ok(true),
            _ => Err(Fault::Syntax(Expected::Flag)),
        }
    }
}

// A list: its length, then its items.
impl<T: Item> PartWith<Global> for Vec<T> {
    ghost Shown = { List T };

    ghost shown = { vec_items };

    ghost reading = { list_of T.item };

    #[tactic(auto, unfolding(crate::specs::Reading::list_of, crate::specs::Reading::then))]
    fn read_with(cursor: &mut Cursor) -> Result<Vec<T>, Fault> {
        let count = cursor.next_number()?;
        cursor.items(count)
    }
}

// A folding strategy: its name, behind a blank, and its factors.
impl PartWith<Global> for FoldingFactor {
    ghost Shown = { Strategy };

    ghost shown = { strategy_of };

    ghost reading = { strategy };

    #[tactic(auto, unfolding(crate::specs::Lines::strategy, crate::specs::Lines::constant_behind, crate::specs::Lines::second_behind, crate::specs::Lines::listed_behind, crate::specs::Reading::then))]
    fn read_with(cursor: &mut Cursor) -> Result<FoldingFactor, Fault> {
        if cursor.takes(b" constant") {
            let factor = cursor.next_number()?;
            return Ok(FoldingFactor::Constant(factor));
        }
        if cursor.takes(b" second") {
            let first = cursor.next_number()?;
            let later = cursor.next_number()?;
            return Ok(FoldingFactor::ConstantFromSecondRound(first, later));
        }
        if cursor.takes(b" per_round") {
            let factors = Vec::read_with(cursor)?;
            return Ok(FoldingFactor::PerRound(factors));
        }
        Err(Fault::Syntax(Expected::Strategy))
    }
}

// The queries and the difficulty of the final phase.
impl<H> PartWith<H> for TerminalBudget {
    ghost Shown = { TerminalBudget };

    ghost shown = { plain };

    ghost reading = { terminal_of };

    #[tactic(auto, unfolding(crate::specs::Lines::terminal_of, crate::specs::Reading::then))]
    fn read_with(cursor: &mut Cursor<'_, H>) -> Result<TerminalBudget, Fault> {
        let num_queries = cursor.next_number()?;
        let pow_bits = cursor.next_number()?;
        Ok(TerminalBudget {
            num_queries,
            pow_bits,
        })
    }
}

impl<'a, H> Cursor<'a, H> {
    // The index of a line in its group.
    #[tactic(auto, unfolding(crate::specs::Lines::line_index, crate::specs::Reading::then))]
    pub fn index(&mut self, index: usize) -> Result<(), Fault>
        ensures { Gives plain (line_index index self.old.rest.now) result self.new.rest.now }
    {
        let number = self.next_number()?;
        if number != index {
            return Err(Fault::Syntax(Expected::Index(index)));
        }
        Ok(())
    }

    // A line: its key word, what stands behind it, and the line feed.
    #[tactic(auto, unfolding(crate::specs::Lines::line, crate::specs::Reading::then))]
    pub fn line_with<P: PartWith<H>>(&mut self, key: Key) -> Result<P, Fault>
        ensures { Gives P.shown (line key P.reading self.old.rest.now) result self.new.rest.now }
    {
        self.key(key)?;
        let value = P::read_with(self)?;
        self.end_of_line()?;
        Ok(value)
    }
}

// What a cursor with the global allocator reads.
impl<'a> Cursor<'a> {
    // A line with any part behind its key word.
    pub fn line<P: Part>(&mut self, key: Key) -> Result<P, Fault>
        ensures { Gives P.shown (line key P.reading self.old.rest.now) result self.new.rest.now }
    {
        let AsPartWith { part } = self.line_with(key)?;
        Ok(part)
    }

    // As many items, one after another.
    #[tactic(auto, using(crate::proofs::Lists::leads_start, crate::proofs::Lists::leads_push, crate::proofs::Lists::leads_all))]
    pub fn items<T: Item>(&mut self, count: usize) -> Result<Vec<T>, Fault>
        ensures { Gives vec_items (each T.item 0 count self.old.rest.now) result self.new.rest.now }
    {
        let mut items = Vec::new(self.heap);
        // Kept: `try_collect` was tried, and says nothing of where its closure leaves the cursor, which the clause tells; `try_fold` would
        // push in a closure, and hand the list on from item to item.
        for index in 0..count {
            let item = T::read_at(self, index)?;
            items.push(item)?;
        }
        Ok(items)
    }

    // The rounds: a line with their number, and a line for each.
    #[tactic(auto, unfolding(crate::specs::Lines::rounds, crate::specs::Lines::rounds_listed, crate::specs::Reading::then))]
    pub fn rounds(&mut self) -> Result<Vec<RoundConfig>, Fault>
        ensures { Gives vec_items (rounds self.old.rest.now) result self.new.rest.now }
    {
        let count = self.line_with(Key::Rounds)?;
        self.items(count)
    }
}
