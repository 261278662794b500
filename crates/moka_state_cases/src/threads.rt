//! A cache that threads share.

use moka_cache::Cache;
use moka_cache_runs::asks::Asks;
use moka_cache_runs::caches::Numbers;
use moka_cache_runs::calls::Call::{Lent, Own};
use moka_cache_runs::calls::Caller;
use moka_cache_runs::calls::Kind::OfKey;
use moka_cache_runs::calls::OfKey::{Get, Insert, Invalidate};
use moka_cache_runs::replies::Reply;
use std::alloc::AllocGlobal;
use std::random::RandomSource;
use std::sync::Wait;
use std::test::Fail;
use std::{io, thread};

const THREADS: u32 = 16;

const KEYS: u32 = 64;

// Inserts the keys of a thread, each its own value, and invalidates every fourth.
fn fill<R: Wait + RandomSource + AllocGlobal>(
    rt: &R,
    cache: &Numbers,
    thread: u32,
) -> io::Result<bool> {
    let asks = &Asks::new();
    let caller = Caller { rt, cache, asks };
    let mut all_done = true;
    let first = thread.wrapping_mul(KEYS);
    for at in 0..KEYS {
        let key = first.wrapping_add(at);
        all_done &= caller.run(&Own(key, OfKey(Insert(key))))? == Reply::Done;
        if key % 4 == 0 {
            all_done &= caller.run(&Lent(key, OfKey(Invalidate)))? == Reply::Done;
        }
    }
    Ok(all_done)
}

#[test]
fn threads_fill_a_cache_by_its_clones(rt: HostRuntime) -> Result<(), Fail> {
    let cache: Numbers = Cache::new(rt.alloc(), 10_000)?;
    let mut jobs = Vec::new(rt.alloc());
    for number in 0..THREADS {
        jobs.push((number, cache.clone()?))?;
    }
    let filled = thread::map_vec(
        &rt,
        jobs,
        &|job: (u32, Numbers)| { fill(&rt, &job.1, job.0).unwrap_or(false) },
    )?;
    for done in filled {
        assert!(rt; done);
    }
    let asks = &Asks::new();
    let caller = Caller {
        rt: &rt,
        cache: &cache,
        asks,
    };
    for key in 0..THREADS * KEYS {
        let want = match key % 4 {
            0 => Reply::Nothing,
            _ => Reply::Value(key),
        };
        assert_eq!(rt; caller.run(&Lent(key, OfKey(Get)))?, want, "key {key}");
        assert_eq!(rt; cache.contains_key(&rt, &key, 0)?, key % 4 > 0, "key {key}");
    }
    Ok(())
}
