// Replays a stored list of the original's draws, shapes and separators. A line `query_draws` has the positions of a phase, its queries and how
// many of them are drawn. A run has its numbers, from `vector` on, then the lines of its shape and of its separator's pieces, and `end`.
#![tactic(auto)]

use configuration::checks::query_draws;
use configuration::whir::WhirConfig;
use format::numbers::RunNumbers;
use format::run::read_run;
use std::alloc::Global;
use std::fmt;
use std::io::{BufRead, BufReader};
use transcript::shape::WhirShape;

// How many draws and runs were compared, and how many of them are different.
#[derive(Clone, Copy, PartialEq, Eq, Debug, Default)]
struct Tally {
    draws: u64,
    runs: u64,
    different: u64,
}

impl fmt::Display for Tally {
    fn fmt<W: fmt::Write>(&self, f: &mut fmt::Formatter<W>) -> fmt::Result {
        write!(
            f,
            "{} draws, {} runs, {} different",
            self.draws, self.runs, self.different
        )
    }
}

fn main(rt: HostRuntime) -> anyhow::Result<()> {
    run(&rt)
}

// Kept: each program of stored lines counts them by itself: a loop for all would be a library's function that calls a closure, which is proved only
// under a `requires`, and no public function has one; what is left to share are two counters.
fn run(rt: &HostRuntime) -> anyhow::Result<()> {
    let mut tally = Tally::default();
    let mut text = String::new(rt.alloc());
    for line in BufReader::new(rt.alloc(), rt.stdin())?.lines(rt.alloc()) {
        let line = line?;
        let same = if let Some(("query_draws", numbers)) = line.split_once(' ') {
            tally.draws = tally.draws.saturating_add(1);
            draws_agree(numbers)
        } else if line.as_str() == "end" {
            tally.runs = tally.runs.saturating_add(1);
            let same = run_agrees(rt.alloc(), text.as_str())?;
            text.clear();
            same
        } else {
            text.push_str(&line)?;
            text.push('\n')?;
            true
        };
        if !same {
            tally.different = tally.different.saturating_add(1);
            println!(rt; "different: {line}, after {tally}")?;
        }
    }
    Ok(println!(rt; "{tally}")?)
}

// Whether the draws of a line are ours; 0 stands for a phase that opens every position.
fn draws_agree(numbers: &str) -> bool {
    let mut numbers = numbers.split(' ').map(|word| word.parse::<usize>().ok());
    let (Some(Some(positions)), Some(Some(queries)), Some(Some(draws)), None) = (
        numbers.next(),
        numbers.next(),
        numbers.next(),
        numbers.next(),
    ) else {
        return false;
    };
    query_draws(positions, queries).unwrap_or(0) == draws
}

// Whether the shape and the pieces that stand behind a run's numbers are ours.
fn run_agrees(heap: Global, text: &str) -> anyhow::Result<bool> {
    let Some((given, expected)) = text.split_once("shape_numbers") else {
        return Ok(false);
    };
    let RunNumbers {
        degree,
        numbers,
        num_opening_claims,
    } = read_run(heap, given.as_bytes())?;
    let config = WhirConfig::new(heap, numbers)?;
    let shape = WhirShape::new(heap, &config, num_opening_claims)?;
    let separator = shape.domain_separator(heap, degree)?;
    let ours = format!(in heap; "{shape}\n{separator}\n")?;
    Ok(ours.strip_prefix("shape_numbers") == Some(expected))
}
