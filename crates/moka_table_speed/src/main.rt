//! The program: works on buckets, to be timed and counted.
//!
//! `moka_table_speed WORK NUMBER ..` makes each work that is named, over so many: `array` times one
//! array of buckets beside std's map, `get`, `find` and `churn` look up and change the keys of a table
//! that has grown, and any other word is its growth alone. Standard output has what was found.
#![tactic(auto)]

mod array;
mod numbers;
mod table;

use std::env;
use std::process::ExitCode;

fn main(rt: HostRuntime) -> ExitCode {
    match measure(&rt) {
        Ok(()) => ExitCode::SUCCESS,
        Err(_) => ExitCode::FAILURE,
    }
}

/// Makes the works of the command line, one after the other.
fn measure(rt: &HostRuntime) -> anyhow::Result<()> {
    let words = words(rt)?;
    for pair in words.chunks(2) {
        if let Some(word) = pair.first() {
            work(rt, word, pair.get(1))?;
        }
    }
    Ok(())
}

/// The words of the command line after the program's name.
fn words(rt: &HostRuntime) -> anyhow::Result<Vec<String>> {
    let mut words = Vec::new(rt.alloc());
    for word in env::args(rt)?.skip(1) {
        words.push(word)?;
    }
    Ok(words)
}

/// Makes one work over the number that stands after it.
fn work(rt: &HostRuntime, word: &str, number: Option<&String>) -> anyhow::Result<()> {
    match word {
        "array" => array::measure(rt, number),
        _ => table::measure(rt, word, number),
    }
}
