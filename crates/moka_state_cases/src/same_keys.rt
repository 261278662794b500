//! Loads of the same keys, by threads that share a cache.

use moka_cache::Cache;
use moka_cache_runs::asks::Asks;
use moka_cache_runs::caches::Numbers;
use moka_cache_runs::calls::Call::{self, Own};
use moka_cache_runs::calls::Kind::Load;
use moka_cache_runs::calls::Load::GetWith;
use moka_cache_runs::calls::{Caller, Gives};
use moka_cache_runs::replies::Reply;
use std::alloc::AllocGlobal;
use std::random::RandomSource;
use std::sync::Wait;
use std::test::Fail;
use std::{io, thread};

const THREADS: usize = 64;

const KEYS: u32 = 1000;

/// The value of a key: each has its own.
fn value_of(key: u32) -> u32 {
    key.wrapping_mul(3)
}

/// A load of the key, by an initializer that yields twice.
fn load_of(key: u32) -> Call {
    Own(key, Load(GetWith(Gives(2, value_of(key)))))
}

/// Loads the key, and tells whether it answered the key's value.
fn has_loaded<R: Wait + RandomSource + AllocGlobal>(
    rt: &R,
    cache: &Numbers,
    key: u32,
    asks: &Asks,
) -> io::Result<bool> {
    let caller = Caller { rt, cache, asks };
    Ok(caller.run(&load_of(key))? == Reply::Value(value_of(key)))
}

/// Polls a load of the key once and drops it. Tells whether it answered nothing, or the key's
/// value.
fn load_dropped<R: Wait + RandomSource + AllocGlobal>(
    rt: &R,
    cache: &Numbers,
    key: u32,
    asks: &Asks,
) -> io::Result<bool> {
    let caller = Caller { rt, cache, asks };
    let reply = caller.poll_once(&load_of(key))?;
    Ok(reply == Reply::Dropped || reply == Reply::Value(value_of(key)))
}

/// Loads each key.
fn load_all<R: Wait + RandomSource + AllocGlobal>(
    rt: &R,
    cache: &Numbers,
    asks: &Asks,
) -> io::Result<bool> {
    let mut all_right = true;
    for key in 0..KEYS {
        all_right &= has_loaded(rt, cache, key, asks)?;
    }
    Ok(all_right)
}

/// Loads each key, of which every third load is dropped after one poll.
fn load_most<R: Wait + RandomSource + AllocGlobal>(
    rt: &R,
    cache: &Numbers,
    thread: u64,
    asks: &Asks,
) -> io::Result<bool> {
    let mut all_right = true;
    for key in 0..KEYS {
        all_right &= match thread.wrapping_add(u64::from(key)) % 3 {
            0 => load_dropped(rt, cache, key, asks)?,
            _ => has_loaded(rt, cache, key, asks)?,
        };
    }
    Ok(all_right)
}

#[test]
fn threads_load_each_key_once(rt: HostRuntime) -> Result<(), Fail> {
    let cache: Numbers = Cache::new(rt.alloc(), 10_000)?;
    let asks = Asks::new();
    let loaded = thread::map_indices(
        &rt,
        rt.alloc(),
        THREADS,
        &|_| load_all(&rt, &cache, &asks).unwrap_or(false),
    )?;
    for all_right in loaded {
        assert!(rt; all_right);
    }
    assert_eq!(rt; asks.polls(), 3 * u64::from(KEYS));
    Ok(())
}

#[test]
fn threads_that_drop_loads_find_right_values(rt: HostRuntime) -> Result<(), Fail> {
    let cache: Numbers = Cache::new(rt.alloc(), 10_000)?;
    let asks = Asks::new();
    let loaded = thread::map_indices(
        &rt,
        rt.alloc(),
        THREADS,
        &|thread| load_most(&rt, &cache, thread as u64, &asks).unwrap_or(false),
    )?;
    for all_right in loaded {
        assert!(rt; all_right);
    }
    Ok(())
}
