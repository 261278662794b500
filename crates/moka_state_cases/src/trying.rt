//! Loads of the same keys that fail at first, by threads that share a cache.

use futures::task::{Context, Poll};
use moka_cache::{Cache, Init, LoadError};
use moka_cache_runs::caches::Numbers;
use moka_cache_runs::run::run;
use std::alloc::{AllocError, AllocGlobal, Global};
use std::random::RandomSource;
use std::sync::Wait;
use std::sync::atomic::{AtomicU64, Ordering};
use std::test::Fail;
use std::{io, thread};

const THREADS: usize = 64;

const KEYS: u32 = 1000;

// Yields once, and gives the value then: an error where nobody was asked before.
#[derive(Drop)]
struct FailsFirst<'a> {
    pends: bool,
    value: u32,
    asked: &'a AtomicU64,
}

impl Init<Result<u32, u32>> for FailsFirst<'_> {
    fn poll(&mut self, cx: &mut Context<'_>) -> Poll<Result<u32, u32>> {
        if self.pends {
            self.pends = false;
            return cx.yield_now();
        }
        match self.asked.fetch_add(1, Ordering::SeqCst) {
            0 => Poll::Ready(Err(self.value)),
            _ => Poll::Ready(Ok(self.value)),
        }
    }
}

// Loads the key, and tells what that gave: a value, or an error. None where it is neither, or not the
// key's own.
fn try_load<'a, R: Wait + RandomSource + AllocGlobal>(
    rt: &'a R,
    cache: &'a Numbers,
    key: u32,
    asked: &'a AtomicU64,
) -> io::Result<Option<bool>> {
    let init = FailsFirst {
        pends: true,
        value: key.wrapping_mul(3),
        asked,
    };
    match run(rt, cache.try_get_with(key, init))? {
        Ok(value) if value == key.wrapping_mul(3) => Ok(Some(true)),
        Err(LoadError::Init(error)) if error == key.wrapping_mul(3) => Ok(Some(false)),
        _ => Ok(None),
    }
}

// Loads the key, once more where that failed, and tells whether that gave its value.
fn load_at_last<'a, R: Wait + RandomSource + AllocGlobal>(
    rt: &'a R,
    cache: &'a Numbers,
    key: u32,
    asked: &'a AtomicU64,
) -> io::Result<bool> {
    match try_load(rt, cache, key, asked)? {
        Some(true) => Ok(true),
        Some(false) => Ok(try_load(rt, cache, key, asked)? == Some(true)),
        None => Ok(false),
    }
}

// Loads each key, whose initializers are counted.
fn load_all<'a, R: Wait + RandomSource + AllocGlobal>(
    rt: &'a R,
    cache: &'a Numbers,
    asked: &'a [AtomicU64],
) -> io::Result<bool> {
    let mut all_right = true;
    for (key, asked) in (0..KEYS).zip(asked) {
        all_right &= load_at_last(rt, cache, key, asked)?;
    }
    Ok(all_right)
}

// A count a key.
fn key_counts(alloc: Global) -> Result<Vec<AtomicU64>, AllocError> {
    let mut counts = Vec::new(alloc);
    for _ in 0..KEYS {
        counts.push(AtomicU64::new(0))?;
    }
    Ok(counts)
}

#[test]
fn threads_ask_twice_where_the_first_load_fails(rt: HostRuntime) -> Result<(), Fail> {
    let cache: Numbers = Cache::new(rt.alloc(), 10_000)?;
    let asked = key_counts(rt.alloc())?;
    let loaded = thread::map_indices(
        &rt,
        rt.alloc(),
        THREADS,
        &|_| load_all(&rt, &cache, &asked).unwrap_or(false),
    )?;
    for all_right in loaded {
        assert!(rt; all_right);
    }
    for asked in &asked {
        assert_eq!(rt; asked.load(Ordering::SeqCst), 2);
    }
    Ok(())
}
