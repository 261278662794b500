//! The program: tries cases of a table in parts, with and without a name, and times threads that make
//! its calls and those of std's map under one lock.
//!
//! `moka_parts_speed PEER WORK CALLS THREADS KEYS` shares the calls among the threads. Standard
//! output has how many calls found a pair, and which cases came out right; standard error how long
//! the calls took.
#![tactic(auto)]

mod asked;
mod calls;
mod cases;
mod peers;
mod tables;
mod timed;
mod totals;
mod works;
mod zeros;

use asked::Asked;
use cases::{all_are_right, memory_is_right};
use peers::Peer;
use std::alloc::{AllocError, Global};
use std::process::ExitCode;
use std::rt::Clock;
use std::sync::Wait;
use std::thread::Threads;
use tables::{Deed, Fold, on_both, on_named, on_parts};
use timed::time_map;

fn main(rt: HostRuntime) -> ExitCode {
    let Ok(asked) = Asked::read(&rt) else {
        return ExitCode::FAILURE;
    };
    if is_done(&rt, rt.alloc(), &asked).unwrap_or(false) {
        return ExitCode::SUCCESS;
    }
    ExitCode::FAILURE
}

/// Times or tries what is asked for. Answers whether the times could be told, and whether each case
/// came out right.
fn is_done<R: Threads + Wait + Clock + Print + Eprint + Sync>(
    rt: &R,
    alloc: Global,
    asked: &Asked,
) -> Result<bool, AllocError> {
    let time = Deed::Time(*asked);
    match asked.peer {
        Peer::Parts => on_parts::<Fold, R>(rt, alloc, time),
        Peer::Named => on_named::<Fold, R>(rt, alloc, time),
        Peer::Map => Ok(time_map(rt, alloc, asked)),
        Peer::Memory => Ok(memory_is_right(rt, alloc)),
        Peer::Cases => Ok(all_are_right(rt, alloc)),
        Peer::All => Ok(all_is_done(rt, alloc, asked)),
        Peer::Nothing => Ok(true),
    }
}

/// Times all peers, one after the other, and tries all cases.
fn all_is_done<R: Threads + Wait + Clock + Print + Eprint + Sync>(
    rt: &R,
    alloc: Global,
    asked: &Asked,
) -> bool {
    let tables = on_both::<Fold, R>(rt, alloc, Deed::Time(*asked));
    let are_timed = tables.unwrap_or(false) && time_map(rt, alloc, asked);
    all_are_right(rt, alloc) && are_timed
}
