//! The program: times threads that make calls of one cache, of one with a listener, and of std's
//! map under a lock, and makes the calls whose memory is measured.
//!
//! `moka_cache_speed PEER WORK CALLS THREADS KEYS WAY` shares the calls among the threads. Standard
//! output has how many calls are over, standard error how long they took.
#![tactic(auto)]

mod asked;
mod cached;
mod calls;
mod crowd;
mod heard;
mod kinds;
mod later;
mod mapped;
mod numbers;
mod rounds;
mod runs;
mod timed;
mod ways;
mod works;

use asked::Asked;
use cached::come_and_store;
use heard::{HearsAny, heard, unheard};
use numbers::Numbers;
use std::alloc::{AllocGlobal, Global};
use std::collections::HashMap;
use std::io;
use std::process::ExitCode;
use std::random::RandomSource;
use std::rt::Clock;
use std::sync::{Mutex, Wait};
use std::thread::Threads;
use timed::time;
use ways::WAYS;
use works::{Job, PEERS, Peer, WORKS, Work};

fn main(rt: HostRuntime) -> ExitCode {
    let Ok(asked) = Asked::read(&rt) else {
        return ExitCode::FAILURE;
    };
    match measure(&rt, rt.alloc(), &asked) {
        Ok(true) => ExitCode::SUCCESS,
        _ => ExitCode::FAILURE,
    }
}

/// Does each job that is asked for, and tells whether there is one.
fn measure<R: Threads + Wait + RandomSource + AllocGlobal + Clock + Print + Eprint + Sync>(
    rt: &R,
    alloc: Global,
    asked: &Asked,
) -> io::Result<bool> {
    let mut done = false;
    for peer in PEERS {
        for work in WORKS {
            done |= measure_work(rt, alloc, asked, peer, work)?;
        }
    }
    if !done {
        eprintln!(rt; "moka_cache_speed: no such peer, work and way; its README has the words")?;
    }
    Ok(done)
}

/// Does the work with the peer in each way that is asked for, and tells whether one is.
fn measure_work<R: Threads + Wait + RandomSource + AllocGlobal + Clock + Print + Eprint + Sync>(
    rt: &R,
    alloc: Global,
    asked: &Asked,
    peer: Peer,
    work: Work,
) -> io::Result<bool> {
    let mut done = false;
    for way in WAYS {
        let job = Job { peer, work, way };
        if asked.is_job(job) {
            measure_job(rt, alloc, asked, job)?;
            done = true;
        }
    }
    Ok(done)
}

/// Does the job with a peer of its own.
fn measure_job<R: Threads + Wait + RandomSource + AllocGlobal + Clock + Print + Eprint + Sync>(
    rt: &R,
    alloc: Global,
    asked: &Asked,
    job: Job,
) -> io::Result<()> {
    match job.peer {
        Peer::Map => time(rt, alloc, &Mutex::new(HashMap::new(alloc)), asked, job),
        Peer::Heard => use_cache(rt, alloc, &heard(alloc)?, asked, job),
        _ => use_cache(rt, alloc, &unheard(alloc, job.peer)?, asked, job),
    }
}

/// Does it with this cache.
fn use_cache<R, L>(
    rt: &R,
    alloc: Global,
    cache: &Numbers<L>,
    asked: &Asked,
    job: Job,
) -> io::Result<()>
where
    R: Threads + Wait + RandomSource + AllocGlobal + Clock + Print + Eprint + Sync,
    L: HearsAny + Send + Sync,
{
    match job.work {
        Work::Burst(burst) => {
            come_and_store(rt, alloc, cache, burst, asked.calls(), asked.few_keys())
        }
        _ => time(rt, alloc, cache, asked, job),
    }
}
