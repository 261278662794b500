//! The time that the calls of threads take.
ghost use Rattle.std.specs.Prelude.{ℕ};

use crate::asked::Asked;
use crate::caller::{Table, calls_of};
use crate::counts::Counts;
use moka_shared::HashMap;
use std::alloc::{AllocError, Global};
use std::hash::BuildHasherDefault;
use std::rt::Clock;
use std::thread::Threads;
use std::time::Instant;
use std::{io, thread};

/// Times the calls of all threads at a new table. Answers whether the time could be told.
pub(crate) fn on_table<R: Threads + Clock + Print + Eprint + Sync>(
    rt: &R,
    alloc: Global,
    asked: &Asked,
) -> bool {
    let capacity = (asked.keys as usize).max(1);
    let Ok(table) = HashMap::with_capacity(alloc, capacity, BuildHasherDefault::new()) else {
        return false;
    };
    let is_told = on_lent(rt, alloc, asked, &table);
    table.close();
    is_told
}

/// Fills the table, where the calls don't insert, and times these. Answers whether the time could be
/// told.
fn on_lent<R: Threads + Clock + Print + Eprint + Sync>(
    rt: &R,
    alloc: Global,
    asked: &Asked,
    table: &Table,
) -> bool {
    if !asked.work.is_insert() {
        let _ = calls_of(table, &asked.filling(), 0);
    }
    let Ok(start) = Instant::now(rt) else {
        return false;
    };
    let run = |number: usize| calls_of(table, asked, number as u64);
    let Ok(counts) = total(rt, alloc, asked.threads as usize, &run) else {
        return false;
    };
    match start.elapsed(rt) {
        Ok(taken) => tell(rt, asked, counts, taken.as_nanos()).is_ok(),
        Err(_) => false,
    }
}

/// What the calls of so many threads at once were answered.
fn total<F: Fn(usize) -> Counts + Sync, R: Threads + Sync>(
    rt: &R,
    alloc: Global,
    threads: usize,
    run: &F,
) -> Result<Counts, AllocError>
    requires { (thread : ℕ) → F.pre run.now thread }
{
    let each = thread::map_indices(rt, alloc, threads, run)?;
    let mut sum = Counts::none();
    for counts in &each {
        sum.add(*counts);
    }
    Ok(sum)
}

/// Prints what the calls were answered, how long one took in its thread, and how many of them that
/// needn't be made again all threads made in a second.
fn tell<R: Print + Eprint>(rt: &R, asked: &Asked, counts: Counts, nanos: u128) -> io::Result<()> {
    let word = asked.work.word();
    println!(rt; "{word} {} again {}", counts.done, counts.again)?;
    let each = nanos / u128::from(asked.share().max(1));
    let calls = u128::from(asked.calls.saturating_sub(counts.again));
    let rate = calls.wrapping_mul(1_000_000_000) / nanos.max(1);
    eprintln!(rt; "{word}: {each} ns a call, {rate} calls a second")
}
