//! Works that threads make, and the time that they take.

use crate::asked::Asked;
use crate::works::Job;
use std::alloc::{AllocError, Global};
use std::rt::Clock;
use std::thread::Threads;
use std::time::Instant;
use std::{io, thread};

/// What threads share, with a runtime to use it.
pub(crate) trait Shared<R> {
    /// Stores each key below this.
    fn fill(&self, rt: &R, keys: u64) -> io::Result<u64>;

    /// Makes so many calls of the job as this thread, and tells how many are over.
    fn make(&self, rt: &R, keys: &[u64], job: Job, thread: u64, calls: u64) -> io::Result<u64>;
}

/// Times the job on what is empty, of which a get finds each key.
pub(crate) fn time<R, P>(rt: &R, alloc: Global, peer: &P, asked: &Asked, job: Job) -> io::Result<()>
where
    R: Threads + Clock + Print + Eprint + Sync,
    P: Shared<R> + Sync,
{
    let keys = keys_below(alloc, asked.keys_of(job.work))?;
    if job.work.is_get() {
        peer.fill(rt, keys.len() as u64)?;
    }
    let start = Instant::now(rt)?;
    let over = make_all(rt, alloc, peer, keys.as_slice(), asked, job)?;
    tell(rt, asked, job, over, start.elapsed(rt)?.as_nanos())
}

/// The keys below a number.
pub(crate) fn keys_below(alloc: Global, count: u64) -> Result<Vec<u64>, AllocError> {
    let mut keys = Vec::new(alloc);
    for key in 0..count {
        keys.push(key)?;
    }
    Ok(keys)
}

/// Makes each thread's calls, and tells how many are over.
fn make_all<R: Threads + Sync, P: Shared<R> + Sync>(
    rt: &R,
    alloc: Global,
    peer: &P,
    keys: &[u64],
    asked: &Asked,
    job: Job,
) -> io::Result<u64> {
    let calls = asked.share();
    let over = thread::map_indices(
        rt,
        alloc,
        asked.threads() as usize,
        &|thread| peer.make(rt, keys, job, thread as u64, calls).unwrap_or(0),
    )?;
    let mut all = 0u64;
    for one in over.iter() {
        all = all.wrapping_add(*one);
    }
    Ok(all)
}

/// Prints how many calls are over, and how long they took.
fn tell<R: Print + Eprint>(
    rt: &R,
    asked: &Asked,
    job: Job,
    over: u64,
    nanos: u128,
) -> io::Result<()> {
    let (peer, work, (space, way)) = (job.peer.name(), job.work.name(), job.way());
    println!(rt; "{peer} {work}{space}{way} {over}")?;
    let each = nanos / u128::from(asked.share().max(1));
    let rate = 1_000_000_000 * u128::from(asked.calls()) / nanos.max(1);
    let threads = asked.threads();
    eprintln!(rt;
        "{peer} {work}{space}{way}: {threads} threads, {each} ns a call, {rate} calls a second"
    )
}
