// The program: one command a run, by the words behind its name.
#![tactic(auto)]

use configuration::errors::WhirConfigError;
use configuration::whir::WhirConfig;
use configuration_view::view::view_of;
use format::errors::ReadError;
use format::numbers::RunNumbers;
use format::reading::read_configuration;
use format::run::read_run;
use parameters::folding::FoldingFactor;
use std::alloc::{AllocError, Global};
use std::process::ExitCode;
use std::{env, fmt, fs, io};
use text::number;
use thiserror::Error;
use transcript::shape::WhirShape;

const USAGE: &str =
    "usage: konwydrel schedule N constant F | second F G | per-round F F .., konwydrel config FILE, or konwydrel separator FILE";

// Numbers above this one are refused by the program.
const LIMIT: usize = 65_535;

// What the words ask for.
#[derive(Drop)]
enum Request<'a> {
    // The schedule of a number of variables.
    Schedule(usize, FoldingFactor),

    // The configuration in a file.
    Config(&'a str),

    // The separator of the run in a file.
    Separator(&'a str),
}

// Why a run has no result to print.
#[derive(Debug, Drop, Error)]
enum RunError {
    // The words are no request.
    #[error("{usage}", usage = USAGE)]
    Usage,

    // The request is refused.
    #[error(transparent)]
    Refused(#[from] WhirConfigError),

    // The file holds no configuration.
    #[error(transparent)]
    Unread(#[from] ReadError),

    #[error(transparent)]
    Memory(#[from(alloc)] AllocError),

    #[error(transparent)]
    Io(#[from] io::Error),
}

// Numbers, with a blank between.
#[derive(Clone, Copy)]
struct Spaced<'a>(&'a [usize]);

impl fmt::Display for Spaced<'_> {
    fn fmt<W: fmt::Write>(&self, f: &mut fmt::Formatter<W>) -> fmt::Result {
        let [first, others @ ..] = self.0 else {
            return Ok(());
        };
        write!(f, "{first}")?;
        for n in others {
            write!(f, " {n}")?;
        }
        Ok(())
    }
}

fn main(rt: HostRuntime) -> ExitCode {
    match run(&rt) {
        Ok(()) => ExitCode::SUCCESS,
        Err(fault) => failed(&rt, &fault),
    }
}

// Writes the fault on standard error, a line.
fn failed(rt: &HostRuntime, fault: &RunError) -> ExitCode {
    let _ = eprintln!(rt; "{fault}");
    ExitCode::FAILURE
}

fn run(rt: &HostRuntime) -> Result<(), RunError> {
    let words: Vec<String> = env::args(rt)?.skip(1).collect(rt.alloc())?;
    let words: Vec<&str> = words.iter().map(|word| word.as_str()).collect(rt.alloc())?;
    if words.is_empty() {
        return Ok(println!(rt; "{USAGE}")?);
    }
    match answer(rt, &words) {
        // A refusal is an answer too.
        Err(RunError::Refused(refusal)) if refusal != WhirConfigError::OutOfMemory => {
            Ok(println!(rt; "{refusal}")?)
        }
        answered => answered,
    }
}

fn answer(rt: &HostRuntime, words: &[&str]) -> Result<(), RunError> {
    match requested(rt.alloc(), words)? {
        Request::Schedule(num_variables, strategy) => schedule(rt, num_variables, &strategy),
        Request::Config(path) => config(rt, path),
        Request::Separator(path) => separator(rt, path),
    }
}

fn requested<'a>(heap: Global, words: &[&'a str]) -> Result<Request<'a>, RunError> {
    match words {
        ["config", path] => Ok(Request::Config(path)),
        ["separator", path] => Ok(Request::Separator(path)),
        ["schedule", num_variables, strategy, factors @ ..] => {
            let num_variables = number::parse(num_variables).ok_or(RunError::Usage)?;
            let numbers: Vec<usize> = factors
                .iter()
                .map(|factor| number::parse(factor).ok_or(RunError::Usage))
                .try_collect(heap)?;
            let strategy = strategy_of(heap, strategy, &numbers)?;
            if num_variables > LIMIT || numbers.iter().any(|n| *n > LIMIT) {
                return Err(RunError::Refused(WhirConfigError::Limit));
            }
            Ok(Request::Schedule(num_variables, strategy))
        }
        _ => Err(RunError::Usage),
    }
}

// The strategy of a name and its factors.
fn strategy_of(heap: Global, name: &str, factors: &[usize]) -> Result<FoldingFactor, RunError> {
    match (name, factors) {
        ("constant", [factor]) => Ok(FoldingFactor::Constant(*factor)),
        ("second", [first, later]) => Ok(FoldingFactor::ConstantFromSecondRound(*first, *later)),
        ("per-round", [_, ..]) => Ok(FoldingFactor::PerRound(Vec::from_slice(heap, factors)?)),
        _ => Err(RunError::Usage),
    }
}

// The schedule, what is left after each phase, and the number of rounds.
fn schedule(
    rt: &HostRuntime,
    num_variables: usize,
    strategy: &FoldingFactor,
) -> Result<(), RunError> {
    let factors = strategy
        .compute_folding_schedule(rt.alloc(), num_variables)
        .map_err(WhirConfigError::from)?;
    let left: Vec<usize> = factors
        .iter()
        .scan(num_variables, |left, factor| {
            *left = left.saturating_sub(*factor);
            Some(*left)
        })
        .collect(rt.alloc())?;
    println!(rt; "{}", Spaced(&factors))?;
    println!(rt; "{}", Spaced(&left))?;
    Ok(println!(rt; "{}", factors.len().saturating_sub(1))?)
}

// The configuration of a file: its schedule, its phases and its buffers.
fn config(rt: &HostRuntime, path: &str) -> Result<(), RunError> {
    let text = fs::read(rt, path)?;
    let numbers = read_configuration(rt.alloc(), &text)?;
    let config = WhirConfig::new(rt.alloc(), numbers)?;
    let view = view_of(rt.alloc(), &config)?;
    println!(rt; "schedule {}", Spaced(&config.numbers.folding_schedule))?;
    for (i, phase) in view.phases.iter().enumerate() {
        println!(rt; "phase {i} {phase}")?;
    }
    Ok(println!(rt; "buffers {}", view.buffers)?)
}

// The separator of a run in a file: its shape, its steps and its pieces. The degree is that of an extension that there is.
fn separator(rt: &HostRuntime, path: &str) -> Result<(), RunError> {
    let text = fs::read(rt, path)?;
    let RunNumbers {
        degree,
        numbers,
        num_opening_claims,
    } = read_run(rt.alloc(), &text)?;
    if ![1, 2, 4, 8].contains(&degree) {
        return Err(RunError::Refused(WhirConfigError::Limit));
    }
    let config = WhirConfig::new(rt.alloc(), numbers)?;
    let shape = WhirShape::new(rt.alloc(), &config, num_opening_claims)?;
    println!(rt; "{shape}")?;
    println!(rt; "{}", shape.pattern(rt.alloc(), degree)?)?;
    Ok(println!(rt; "{}", shape.domain_separator(rt.alloc(), degree)?)?)
}
