//! The program: works on a map, to be counted and timed.
//!
//! `moka_map_speed WORK NUMBER ..` makes each work that is named, over so many: `get`, `churn` and
//! `mixed` look up and change the keys of a map that has grown, `turns` changes the keys of a small
//! one, and any other word is the growth alone. Standard output has what was found.
#![tactic(auto)]

mod map;

use std::env;
use std::process::ExitCode;

fn main(rt: HostRuntime) -> ExitCode {
    match measure(&rt) {
        Ok(()) => ExitCode::SUCCESS,
        Err(_) => ExitCode::FAILURE,
    }
}

/// Makes the works of the command line, one after the other.
fn measure(rt: &HostRuntime) -> anyhow::Result<()> {
    let words = words(rt)?;
    for pair in words.chunks(2) {
        if let Some(word) = pair.first() {
            map::measure(rt, word, pair.get(1))?;
        }
    }
    Ok(())
}

/// The words of the command line after the program's name.
fn words(rt: &HostRuntime) -> anyhow::Result<Vec<String>> {
    let mut words = Vec::new(rt.alloc());
    for word in env::args(rt)?.skip(1) {
        words.push(word)?;
    }
    Ok(words)
}
