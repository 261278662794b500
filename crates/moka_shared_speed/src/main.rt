//! The program: times threads that look up and insert at a table that they share.
//!
//! `moka_shared_speed WORK CALLS THREADS KEYS` shares the calls among the threads. Standard output has
//! how many of them found or inserted a pair, and how many have to be made again; standard error how
//! long they took.
#![tactic(auto)]

mod asked;
mod caller;
mod counts;
mod timed;
mod works;

use asked::Asked;
use std::alloc::Global;
use std::process::ExitCode;
use std::rt::Clock;
use std::thread::Threads;
use timed::on_table;
use works::Work;

fn main(rt: HostRuntime) -> ExitCode {
    let Ok(asked) = Asked::read(&rt) else {
        return ExitCode::FAILURE;
    };
    if measure(&rt, rt.alloc(), &asked) {
        return ExitCode::SUCCESS;
    }
    ExitCode::FAILURE
}

/// Times what is asked for. Answers whether the times could be told.
fn measure<R: Threads + Clock + Print + Eprint + Sync>(
    rt: &R,
    alloc: Global,
    asked: &Asked,
) -> bool {
    match asked.work {
        Work::All => measure_all(rt, alloc, asked),
        _ => on_table(rt, alloc, asked),
    }
}

/// Times each work at a table of its own, one after the other.
fn measure_all<R: Threads + Clock + Print + Eprint + Sync>(
    rt: &R,
    alloc: Global,
    asked: &Asked,
) -> bool {
    let get = on_table(rt, alloc, &asked.with(Work::Get));
    let miss = on_table(rt, alloc, &asked.with(Work::Miss));
    let insert = on_table(rt, alloc, &asked.with(Work::Insert));
    get && miss && insert
}
