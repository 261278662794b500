//! Loads by futures of each kind.

use crate::answers::Runtime;
use futures::FutureExt;
use futures::future::{join, lazy, ready};
use moka_cache::Cache;
use std::alloc::Global;
use std::{io, thread};

/// Numbers by their numbers. An error is a source's code.
type Numbers = Cache<u32, u32, u32>;

/// Loads by each method of a cache: once by a test too, which the value 10 fails.
fn by_key<R: Runtime>(rt: &R, cache: &Numbers) -> io::Result<()> {
    let first = cache.get_with(1, lazy(|_| 10)).block_on(rt, 0)??;
    let again = cache.get_with_if(1, lazy(|_| 20), |value: &u32| *value < 20);
    let again = again.block_on(rt, 0)??;
    let absent = cache
        .optionally_get_with(2, lazy(|_| None))
        .block_on(rt, 0)??;
    let failed = cache.try_get_with(2, lazy(|_| Err(30))).block_on(rt, 0)?;
    println!(rt; "by key: {first}, {again}, {absent:?}, {failed:?}")
}

/// Loads by each method of an entry.
fn by_entry<R: Runtime>(rt: &R, cache: &Numbers) -> io::Result<()> {
    let first = cache
        .entry(3)
        .or_insert_with(lazy(|_| 40))
        .block_on(rt, 0)??;
    let test = |value: &u32| *value > 40;
    let kept = cache.entry(3).or_insert_with_if(lazy(|_| 50), test);
    let kept = kept.block_on(rt, 0)??;
    let absent = cache.entry(4).or_optionally_insert_with(lazy(|_| None));
    let absent = absent.block_on(rt, 0)??.is_none();
    let failed = cache.entry(4).or_try_insert_with(lazy(|_| Err(60)));
    let failed = failed.block_on(rt, 0)?.err();
    let (first, kept) = (first.value, kept.value);
    println!(rt; "by entry: {first}, {kept}, absent {absent}, {failed:?}")
}

/// Loads the sum of what two futures give.
fn by_two<R: Runtime>(rt: &R, cache: &Numbers) -> io::Result<()> {
    let sum = join(lazy(|_| 2u32), ready(3u32)).map(|(one, other)| one.wrapping_add(other));
    let sum = cache.get_with(5, sum).block_on(rt, 0)??;
    println!(rt; "by two futures: {sum}")
}

/// Loads in each way.
pub(crate) fn show<R: Runtime>(rt: &R, alloc: Global) -> io::Result<()> {
    let cache = Cache::new(alloc, 100)?;
    by_key(rt, &cache)?;
    by_entry(rt, &cache)?;
    by_two(rt, &cache)
}
