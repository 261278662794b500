//! The program: plays one scenario of calls of a cache, by two tasks of one thread, and prints what
//! each call answered, and what the listener heard.
//!
//! With the word `cancelled` each call is cancelled at its first poll that pends. It prints the same
//! where memory is refused to it; until the scenario begins it may end with status 6, and says
//! `out of memory`. With the word `dropped` it plays a scenario of writes, each of which is cancelled
//! also at a poll that finds no memory.
#![tactic(auto)]

mod deeds;
mod heard;
mod patient;
mod scenario;
mod stage;
mod tasks;
mod turns;

use deeds::Way;
use stage::Stage;
use std::alloc::AllocGlobal;
use std::process::ExitCode;
use std::random::RandomSource;
use std::sync::Wait;
use std::{env, io};

/// How the program ends where there is no memory for what it plays with.
const MEMORY: u8 = 6;

fn main(rt: HostRuntime) -> ExitCode {
    match way_asked(&rt) {
        Ok(way) => play(&rt, way),
        Err(_) => end_in_memory(&rt),
    }
}

/// The way that the command line asks for.
fn way_asked(rt: &HostRuntime) -> io::Result<Way> {
    for word in env::args(rt)?.skip(1) {
        match word.as_str() {
            "cancelled" => return Ok(Way::Cancelled),
            "dropped" => return Ok(Way::Dropped),
            _ => {}
        }
    }
    Ok(Way::Whole)
}

/// Says that there is no memory, and how the program ends.
fn end_in_memory<R: Eprint>(rt: &R) -> ExitCode {
    let _ = eprintln!(rt; "out of memory");
    ExitCode::from(MEMORY)
}

/// Plays the scenario in this way, and prints what it told.
fn play<R: Wait + RandomSource + AllocGlobal + Print + Eprint>(rt: &R, way: Way) -> ExitCode {
    let Ok(mut stage) = Stage::build(rt, way) else {
        return end_in_memory(rt);
    };
    stage.play(rt);
    match stage.print(rt) {
        Ok(()) => ExitCode::SUCCESS,
        Err(_) => ExitCode::FAILURE,
    }
}
