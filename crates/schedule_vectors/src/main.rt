// Replays a stored list of schedules: each line has a strategy, the number of variables and the answer that the original
// implementation gave. It prints each line that is answered otherwise, and at the end how many lines were compared.
#![tactic(auto)]

use parameters::errors::ScheduleError;
use parameters::folding::FoldingFactor;
use std::alloc::{AllocError, Global};
use std::fmt::Write;
use std::io::{BufRead, BufReader};
use text::number;
use thiserror::Error;

// Why a line has no answer of ours.
#[derive(Debug, Drop, Error)]
enum LineError {
    #[error("the line is no strategy with its answer")]
    Unreadable,
    #[error(transparent)]
    Unscheduled(#[from] ScheduleError),
    #[error(transparent)]
    OutOfMemory(#[from(alloc)] AllocError),
}

fn main(rt: HostRuntime) -> anyhow::Result<()> {
    run(&rt)
}

// Kept: each program of stored lines counts them by itself: a loop for all would be a library's function that calls a closure, which is proved only
// under a `requires`, and no public function has one; what is left to share are two counters.
fn run(rt: &HostRuntime) -> anyhow::Result<()> {
    let mut compared = 0u64;
    let mut different = 0u64;
    for line in BufReader::new(rt.alloc(), rt.stdin())?.lines(rt.alloc()) {
        let line = line?;
        compared = compared.saturating_add(1);
        let same = match agrees(rt.alloc(), line.as_str()) {
            Err(LineError::Unreadable) => false,
            answer => answer?,
        };
        if !same {
            different = different.saturating_add(1);
            println!(rt; "different: {line}")?;
        }
    }
    Ok(println!(rt; "{compared} compared, {different} different")?)
}

// Whether the line's answer is ours.
fn agrees(heap: Global, line: &str) -> Result<bool, LineError> {
    let (strategy, rest) = line.split_once(" n ").ok_or(LineError::Unreadable)?;
    let (n, expected) = rest.split_once(' ').ok_or(LineError::Unreadable)?;
    let n = number::parse(n).ok_or(LineError::Unreadable)?;
    let strategy = strategy_of(heap, strategy)?;
    let answer = answer_of(heap, &strategy, n)?;
    Ok(answer.as_str() == expected)
}

// A strategy's name and its numbers; a list has its length before it.
fn strategy_of(heap: Global, text: &str) -> Result<FoldingFactor, LineError> {
    let (name, words) = text.split_once(' ').ok_or(LineError::Unreadable)?;
    let numbers: Vec<usize> = words
        .split(' ')
        .map(|word| number::parse(word).ok_or(LineError::Unreadable))
        .try_collect(heap)?;
    match (name, numbers.as_slice()) {
        ("constant", [f]) => Ok(FoldingFactor::Constant(*f)),
        ("second", [f, g]) => Ok(FoldingFactor::ConstantFromSecondRound(*f, *g)),
        ("per_round", [_count, factors @ ..]) => {
            Ok(FoldingFactor::PerRound(Vec::from_slice(heap, factors)?))
        }
        _ => Err(LineError::Unreadable),
    }
}

// Our answer in the list's own form.
fn answer_of(heap: Global, strategy: &FoldingFactor, n: usize) -> Result<String, LineError> {
    let factors = match strategy.compute_folding_schedule(heap, n) {
        Err(ScheduleError::Folding(fault)) => return Ok(format!(in heap; "err {fault}")?),
        answer => answer?,
    };
    let count = factors.len();
    let mut text = format!(in heap; "ok {count}")?;
    for factor in &factors {
        write!(text, " {factor}")?;
    }
    Ok(text)
}
