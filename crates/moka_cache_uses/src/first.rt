//! One load for two callers.

use crate::answers::{Runtime, both};
use crate::sources::After;
use futures::future::ready;
use moka_cache::Cache;
use std::alloc::Global;
use std::io;

/// Two callers miss key 1 at once: the first one's source is asked, and both get what it gives.
pub(crate) fn show<R: Runtime>(rt: &R, alloc: Global) -> io::Result<()> {
    let cache: Cache<u32, u32> = Cache::new(alloc, 100)?;
    let first = cache.get_with(1, After { polls: 2, gives: 9 });
    let (first, second) = both(rt, first, cache.get_with(1, ready(8)))?;
    println!(rt; "one load: {first:?} and {second:?}")
}
