//! A listener that counts what leaves.

use crate::answers::Runtime;
use moka_cache::{Cache, CacheBuilder};
use std::alloc::Global;
use std::io;
use std::sync::atomic::{AtomicU64, Ordering};

/// Stores three values under key 1, one after the other, takes the last one out, and counts what
/// leaves.
pub(crate) fn show<R: Runtime>(rt: &R, alloc: Global) -> io::Result<()> {
    let left = AtomicU64::new(0);
    let cache: Cache<u32, u32, (), _> = CacheBuilder::new(100)
        .eviction_listener(|_key: &u32, _value: &u32, _cause| {
            left.fetch_add(1, Ordering::SeqCst);
        })
        .build(alloc)?;
    for value in [5, 6, 7] {
        cache.insert(1, value).block_on(rt, 0)?;
    }
    let removed = cache.remove(&1).block_on(rt, 0)?;
    let left = left.load(Ordering::SeqCst);
    println!(rt; "listener: {left} left, the last by a removal of {removed:?}")
}
