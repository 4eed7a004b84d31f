//! Replays stored lines of sponge calls. A line is `sponge KIND`, then `observe HEX` or `draw WORD`
//! for each call on a new sponge, then `after KIND STATE`; it agrees if every word drawn and the
//! state at the end are those of the line. Prints how much was replayed, and each line that disagrees;
//! then the coefficients of the first element that a new sponge of each kind draws, which are the first
//! words of the stored lines modulo the modulus.
#![tactic(auto)]

use field::pair::Pair;
use field::residue::Residue;
use field::{BaseField, ExtensionField, Field};
use replay::{LineError, Tally, replay};
use sponge::Sponge;
use sponge::archive::ArchiveSponge;
use sponge::drawing::draw_extension;
use sponge::trial::TrialSponge;
use std::io::{BufRead, BufReader};

mod replay;

fn replay_line(rt: &HostRuntime, line: &str, tally: &mut Tally) -> Result<bool, LineError> {
    let Some(("sponge", rest)) = line.split_once(' ') else {
        return Err(LineError::Unreadable);
    };
    match rest.split_once(' ') {
        Some(("archive", calls)) => replay::<ArchiveSponge>(rt.alloc(), (), calls, tally),
        Some(("trial", calls)) => replay::<TrialSponge>(rt.alloc(), (), calls, tally),
        _ => Err(LineError::Unreadable),
    }
}

// Kept: each program of stored lines counts them by itself: a loop for all would be a library's function that calls a closure, which is proved only
// under a `requires`, and no public function has one; what is left to share are two counters.
fn run(rt: &HostRuntime) -> anyhow::Result<()> {
    let mut tally = Tally::default();
    for line in BufReader::new(rt.alloc(), rt.stdin())?.lines(rt.alloc()) {
        tally.lines = tally.lines.saturating_add(1);
        let agrees = match replay_line(rt, line?.as_str(), &mut tally) {
            Err(LineError::Unreadable) => false,
            answer => answer?,
        };
        if !agrees {
            tally.wrong = tally.wrong.saturating_add(1);
            let number = tally.lines;
            println!(rt; "line {number} disagrees")?;
        }
    }
    println!(rt; "{tally}")?;
    show_elements(rt)
}

// The coefficients of the first element that a new sponge draws.
fn show_element<F: BaseField, E: ExtensionField<F>, S: Sponge + Drop>(
    rt: &HostRuntime,
    seed: S::Seed,
) -> anyhow::Result<()> {
    let mut sponge = S::make(seed);
    let x = draw_extension::<F, E, S>(&mut sponge);
    // Kept: by index, since a trait answers no `impl Iterator`: an iterator over the coefficients would be a type of its own, and
    // count the same index.
    for j in 0..E::degree() {
        let c = x.coefficient(j).number();
        print!(rt; " {c}")?;
    }
    println!(rt; "")?;
    Ok(())
}

fn show_elements(rt: &HostRuntime) -> anyhow::Result<()> {
    print!(rt; "trial, below 257, degree 2:")?;
    show_element::<Residue<257>, Pair<Residue<257>>, TrialSponge>(rt, ())?;
    print!(rt; "archive, below 65537, degree 4:")?;
    show_element::<Residue<65537>, Pair<Pair<Residue<65537>>>, ArchiveSponge>(rt, ())
}

fn main(rt: HostRuntime) -> anyhow::Result<()> {
    run(&rt)
}
