//! Upserts of the same keys, by threads that share a cache.

use moka_cache::Cache;
use moka_cache_runs::asks::Asks;
use moka_cache_runs::caches::Numbers;
use moka_cache_runs::calls::Call::{Lent, Own};
use moka_cache_runs::calls::Caller;
use moka_cache_runs::calls::Compute::UpsertWith;
use moka_cache_runs::calls::Kind::{Compute, OfKey};
use moka_cache_runs::calls::OfKey::Get;
use moka_cache_runs::replies::Reply;
use std::alloc::{AllocError, AllocGlobal, Global};
use std::random::RandomSource;
use std::sync::Wait;
use std::sync::atomic::{AtomicU64, Ordering};
use std::test::Fail;
use std::{io, thread};

const THREADS: u32 = 64;

const KEYS: u32 = 100;

const TIMES: u32 = 100;

// Counts the key up, and tells whether it did.
fn count_up<R: Wait + RandomSource + AllocGlobal>(
    rt: &R,
    cache: &Numbers,
    key: u32,
) -> io::Result<bool> {
    let asks = &Asks::new();
    let caller = Caller { rt, cache, asks };
    let reply = caller.run(&Own(key, Compute(UpsertWith(1))))?;
    Ok(matches!(reply, Reply::Entry(_)))
}

// Counts the key up by one poll, and tells whether it did: where it is pending it is dropped.
fn count_dropped<R: Wait + RandomSource + AllocGlobal>(
    rt: &R,
    cache: &Numbers,
    key: u32,
    polls: u64,
) -> io::Result<bool> {
    let asks = &Asks::new();
    let caller = Caller { rt, cache, asks };
    let reply = caller.poll_once(&Own(key, Compute(UpsertWith(polls))))?;
    Ok(matches!(reply, Reply::Entry(_)))
}

// Counts each key up so often. Each thread begins at a key of its own.
fn count_all<R: Wait + RandomSource + AllocGlobal>(
    rt: &R,
    cache: &Numbers,
    thread: u32,
) -> io::Result<bool> {
    let mut all = true;
    for _ in 0..TIMES {
        for at in 0..KEYS {
            all &= count_up(rt, cache, thread.wrapping_add(at) % KEYS)?;
        }
    }
    Ok(all)
}

// Counts the key up, and tells whether it did. Every third upsert is dropped once it was polled, and
// half of these are not pending by themselves.
fn count_or_drop<R: Wait + RandomSource + AllocGlobal>(
    rt: &R,
    cache: &Numbers,
    key: u32,
    time: u32,
) -> io::Result<bool> {
    match time.wrapping_add(key) % 6 {
        0 => count_dropped(rt, cache, key, 1),
        3 => count_dropped(rt, cache, key, 0),
        _ => count_up(rt, cache, key),
    }
}

// Counts so, and how often each key was counted up.
fn count_most<R: Wait + RandomSource + AllocGlobal>(
    rt: &R,
    cache: &Numbers,
    thread: u32,
    counted: &[AtomicU64],
) -> io::Result<()> {
    for time in 0..TIMES {
        for at in 0..KEYS {
            let key = thread.wrapping_add(at) % KEYS;
            let done = count_or_drop(rt, cache, key, time)?;
            if let Some(times) = counted.get(key as usize) {
                times.fetch_add(u64::from(done), Ordering::SeqCst);
            }
        }
    }
    Ok(())
}

// The numbers of the threads.
fn thread_numbers(alloc: Global) -> Result<Vec<u32>, AllocError> {
    let mut numbers = Vec::new(alloc);
    for thread in 0..THREADS {
        numbers.push(thread)?;
    }
    Ok(numbers)
}

// A count a key.
fn key_counts(alloc: Global) -> Result<Vec<AtomicU64>, AllocError> {
    let mut counts = Vec::new(alloc);
    for _ in 0..KEYS {
        counts.push(AtomicU64::new(0))?;
    }
    Ok(counts)
}

// What a get of the key replies.
fn count_of<R: Wait + RandomSource + AllocGlobal>(
    rt: &R,
    cache: &Numbers,
    key: u32,
) -> io::Result<Reply> {
    let asks = &Asks::new();
    let caller = Caller { rt, cache, asks };
    caller.run(&Lent(key, OfKey(Get)))
}

// Whether a key has a count from the one to the other.
fn is_within(found: Reply, least: u64, most: u64) -> bool {
    match found {
        Reply::Value(count) => least <= u64::from(count) && u64::from(count) <= most,
        _ => false,
    }
}

#[test]
fn threads_count_each_key(rt: HostRuntime) -> Result<(), Fail> {
    let cache: Numbers = Cache::new(rt.alloc(), 1000)?;
    let counted = thread::map_vec(
        &rt,
        thread_numbers(rt.alloc())?,
        &|thread: u32| count_all(&rt, &cache, thread).unwrap_or(false),
    )?;
    for all in counted {
        assert!(rt; all);
    }
    for key in 0..KEYS {
        assert_eq!(rt;
            count_of(&rt, &cache, key)?,
            Reply::Value(6400),
            "of key {key}"
        );
    }
    Ok(())
}

#[test]
fn threads_that_drop_upserts_count_those_that_answered(rt: HostRuntime) -> Result<(), Fail> {
    let cache: Numbers = Cache::new(rt.alloc(), 1000)?;
    let answered = key_counts(rt.alloc())?;
    let all_done = thread::map_vec(
        &rt,
        thread_numbers(rt.alloc())?,
        &|thread: u32| count_most(&rt, &cache, thread, &answered).is_ok(),
    )?;
    for done in all_done {
        assert!(rt; done);
    }
    for (key, times) in (0..KEYS).zip(&answered) {
        let least = times.load(Ordering::SeqCst);
        let found = count_of(&rt, &cache, key)?;
        assert!(rt;
            is_within(found, least, 6400),
            "key {key}, at least {least}"
        );
    }
    Ok(())
}
