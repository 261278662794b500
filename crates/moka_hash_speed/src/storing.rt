//! Keys that are stored in a cache, however it hashes.

use moka_cache::{Cache, NoListener};
use std::alloc::AllocGlobal;
use std::hash::BuildHasher;
use std::io;
use std::random::RandomSource;
use std::sync::Wait;

/// Stores each key, one after the other, and tells how many were stored.
pub(crate) fn store_all<R: Wait + RandomSource + AllocGlobal, S: BuildHasher + Drop>(
    rt: &R,
    cache: &Cache<u64, u64, (), NoListener, S>,
    keys: &[u64],
) -> io::Result<u64> {
    for key in keys {
        cache.insert(*key, *key).block_on(rt, 0)?;
    }
    Ok(keys.len() as u64)
}
