// Replays a stored list of configurations: the lines of each, and behind them a line with the verdict that is expected of it, `checked`
// or the refusal as it is read out. It prints each expectation that is not met, and at the end how many were compared.
#![tactic(auto)]

use configuration::errors::WhirConfigError;
use configuration::whir::WhirConfig;
use format::reading::read_configuration;
use std::alloc::Global;
use std::io::{BufRead, BufReader};

fn main(rt: HostRuntime) -> anyhow::Result<()> {
    run(&rt)
}

// Kept: each program of stored lines counts them by itself: a loop for all would be a library's function that calls a closure, which is proved only
// under a `requires`, and no public function has one; what is left to share are two counters.
fn run(rt: &HostRuntime) -> anyhow::Result<()> {
    let mut compared = 0u64;
    let mut different = 0u64;
    let mut text = String::new(rt.alloc());
    for line in BufReader::new(rt.alloc(), rt.stdin())?.lines(rt.alloc()) {
        let line = line?;
        if let Some(("expected", expected)) = line.split_once(' ') {
            compared = compared.saturating_add(1);
            if verdict_of(rt.alloc(), text.as_bytes())?.as_str() != expected {
                different = different.saturating_add(1);
                println!(rt; "different: {line}")?;
            }
            text.clear();
        } else {
            text.push_str(&line)?;
            text.push('\n')?;
        }
    }
    Ok(println!(rt; "{compared} compared, {different} different")?)
}

// Our verdict on the configuration of a text, in the list's own form.
fn verdict_of(heap: Global, text: &[u8]) -> anyhow::Result<String> {
    let numbers = match read_configuration(heap, text) {
        Ok(numbers) => numbers,
        Err(fault) => return Ok(fault.to_string(heap)?),
    };
    match WhirConfig::new(heap, numbers) {
        Ok(_config) => Ok(String::from_str(heap, "checked")?),
        Err(fault @ WhirConfigError::OutOfMemory) => Err(fault.into()),
        Err(fault) => Ok(fault.to_string(heap)?),
    }
}
