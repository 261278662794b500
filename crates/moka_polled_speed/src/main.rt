//! The program: loads of keys that are stored, to be counted.
//!
//! `moka_polled_speed WAY ROUNDS ..` makes so many rounds in each way that is named: `polled` by calls
//! of `PolledMachine`, `machine` by events of `Machine`, and any other word none. Standard output has
//! what was found.
#![tactic(auto)]

mod by_machine;
mod by_polled;

use std::env;
use std::process::ExitCode;

/// The number of rounds where none is asked for.
const ROUNDS: u64 = 1000;

fn main(rt: HostRuntime) -> ExitCode {
    match measure(&rt) {
        Ok(()) => ExitCode::SUCCESS,
        Err(_) => ExitCode::FAILURE,
    }
}

/// Makes the rounds of the command line, one way after the other.
fn measure(rt: &HostRuntime) -> anyhow::Result<()> {
    let words = words(rt)?;
    for pair in words.chunks(2) {
        if let Some(word) = pair.first() {
            make(rt, word, rounds_asked(pair.get(1)))?;
        }
    }
    Ok(())
}

/// The words of the command line after the program's name.
fn words(rt: &HostRuntime) -> anyhow::Result<Vec<String>> {
    let mut words = Vec::new(rt.alloc());
    for word in env::args(rt)?.skip(1) {
        words.push(word)?;
    }
    Ok(words)
}

/// The number of this word, or 1000.
fn rounds_asked(word: Option<&String>) -> u64 {
    match word {
        None => ROUNDS,
        Some(word) => word.as_str().parse::<u64>().unwrap_or(ROUNDS),
    }
}

/// Makes the rounds in this way, and writes how many found a value.
fn make(rt: &HostRuntime, word: &str, rounds: u64) -> anyhow::Result<()> {
    let found = match word {
        "polled" => by_polled::found(rt.alloc(), rounds)?,
        "machine" => by_machine::found(rt.alloc(), rounds)?,
        _ => 0,
    };
    println!(rt; "{word}: found {found} of {rounds}")?;
    Ok(())
}
