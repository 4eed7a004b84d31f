//! Replays stored openings: each line has the answer that its opening has to get (`scripts/opening_vectors.py` says how a line reads).
//! Prints how many were accepted and refused as they have to be, and the bytes of a shelf's number.
#![tactic(auto)]

use commit::extension::ExtensionScheme;
use commit::kept::KeptTables;
use commit::merkle::Merkle;
use commit::opening::check_opening;
use commit::view::Flat;
use commit::{OpeningScheme, Places};
use field::pair::Pair;
use field::residue::Residue;
use field::{BaseField, ExtensionField};
use line::{Kind, Line};
use std::alloc::Global;

mod line;

// An opening of rows of X, but for the scheme's own parts.
#[derive(PartialEq, Eq, Debug, Drop)]
struct Opening<X: Copy> {
    width: usize,
    positions: usize,
    indices: Vec<usize>,
    rows: Vec<X>,
}

impl<X: Copy> Opening<X> {
    fn places<'a, N>(&'a self, paths: &'a [N]) -> Places<'a, N> {
        Places {
            positions: self.positions,
            indices: self.indices.as_slice(),
            paths,
        }
    }

    fn rows(&self) -> Flat<X> {
        Flat {
            elements: self.rows.as_slice(),
            width: self.width,
        }
    }
}

fn read_opening<F: BaseField, E: ExtensionField<F>>(line: &mut Line) -> anyhow::Result<Opening<E>> {
    Ok(Opening {
        width: line.one() as usize,
        positions: line.one() as usize,
        indices: line.indices()?,
        rows: line.rows::<F, E>()?,
    })
}

// The answer of a tree to an opening of rows of E, read as coefficients.
fn tree<F: BaseField, E: ExtensionField<F>>(line: &mut Line) -> anyhow::Result<bool> {
    let opening = read_opening::<F, E>(line)?;
    let root = line.digest();
    let paths = line.digests()?;
    let merkle = Merkle::<F>::new();
    let scheme = ExtensionScheme::<F, E, Merkle<F>>::new(&merkle);
    let places = opening.places(paths.as_slice());
    Ok(check_opening(&scheme, &root, &places, &opening.rows()))
}

// The answer of kept tables to an opening of rows of E, read as coefficients.
fn kept<F: BaseField, E: ExtensionField<F>>(line: &mut Line) -> anyhow::Result<bool> {
    let opening = read_opening::<F, E>(line)?;
    let number = line.one();
    let shelves = line.shelves()?;
    let values = line.values::<F>()?;
    let tables = KeptTables {
        values: values.as_slice(),
        shelves: shelves.as_slice(),
    };
    let scheme = ExtensionScheme::<F, E, KeptTables<F>>::new(&tables);
    let places = opening.places(&[]);
    Ok(check_opening(&scheme, &number, &places, &opening.rows()))
}

// Kept: a match on the kind of a line, one arm each, says what is compared; a closure for each kind would say no more.
fn answer<F: BaseField, E: ExtensionField<F>>(line: &mut Line) -> anyhow::Result<bool> {
    match line.kind() {
        Kind::Tree => tree::<F, E>(line),
        Kind::Kept => kept::<F, E>(line),
    }
}

// Kept: one arm for each degree names its extension, here and in two other programs: one match for all would take a trait with a generic function,
// and a type with an impl of it in each program, in place of these lines.
fn answer_over<F: BaseField>(line: &mut Line) -> anyhow::Result<bool> {
    match line.one() {
        1 => answer::<F, F>(line),
        2 => answer::<F, Pair<F>>(line),
        4 => answer::<F, Pair<Pair<F>>>(line),
        _ => answer::<F, Pair<Pair<Pair<F>>>>(line),
    }
}

#[derive(Clone, Copy, PartialEq, Eq, Debug, Default)]
struct Tally {
    accepted: u32,
    refused: u32,
    wrong: u32,
}

impl Tally {
    fn count(&mut self, due: bool, got: bool) {
        let place = match (due, got) {
            (true, true) => &mut self.accepted,
            (false, false) => &mut self.refused,
            _ => &mut self.wrong,
        };
        *place = place.saturating_add(1);
    }
}

fn replay(line: &mut Line, tally: &mut Tally) -> anyhow::Result<()> {
    let due = line.one() == 1;
    let got = match line.one() {
        257 => answer_over::<Residue<257>>(line)?,
        _ => answer_over::<Residue<65537>>(line)?,
    };
    tally.count(due, got);
    Ok(())
}

// The numbers after the first word of a line.
fn numbers(heap: Global, line: &str) -> anyhow::Result<Vec<u32>> {
    let words = line.split_whitespace().skip(1);
    words.map(|word| Ok(word.parse::<u32>()?)).try_collect(heap)
}

// Kept: each program of stored lines counts them by itself: a loop for all would be a library's function that calls a closure, which is proved only
// under a `requires`, and no public function has one; what is left to share are two counters.
fn run(rt: &HostRuntime) -> anyhow::Result<()> {
    let mut tally = Tally::default();
    for line in rt.lines(rt.alloc()) {
        let line = line?;
        let numbers = numbers(rt.alloc(), &line)?;
        let mut line = Line::new(rt.alloc(), Kind::from(line.as_str()), numbers.as_slice());
        replay(&mut line, &mut tally)?;
    }
    let Tally {
        accepted,
        refused,
        wrong,
    } = tally;
    println!(rt; "{accepted} openings accepted, {refused} refused, {wrong} answered wrongly")?;
    Ok(())
}

// The bytes that the shelf number 16909060, in hexadecimal 01020304, is observed as. Six numbers are printed, with a nine for each
// byte that is not there: the two nines show that these four bytes are all.
fn show_shelf_number(rt: &HostRuntime) -> anyhow::Result<()> {
    let tables = KeptTables::<Residue<257>> {
        values: &[],
        shelves: &[],
    };
    let bytes = tables.commitment_bytes(&16909060);
    let count = bytes.len();
    print!(rt; "{count} bytes:")?;
    for byte in bytes.iter().chain(&[9; 6]).take(6) {
        print!(rt; " {byte}")?;
    }
    println!(rt; "")?;
    Ok(())
}

fn main(rt: HostRuntime) -> anyhow::Result<()> {
    run(&rt)?;
    show_shelf_number(&rt)
}
