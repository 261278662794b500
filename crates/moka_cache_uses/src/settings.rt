//! Settings that are loaded from a source which may fail.

use crate::answers::{Runtime, both};
use crate::sources::After;
use futures::future::ok;
use moka_cache::Cache;
use std::alloc::Global;
use std::io;

/// Settings by their numbers. An error is the source's code.
type Settings = Cache<u32, u32, u32>;

/// Asks for setting 1 twice at once: the first one's source fails with code 3, and both answer that.
/// The error was not stored, so that of the next one is asked.
pub(crate) fn show<R: Runtime>(rt: &R, alloc: Global) -> io::Result<()> {
    let settings: Settings = Cache::new(alloc, 100)?;
    let fails = After {
        polls: 2,
        gives: Err(3),
    };
    let one = settings.try_get_with(1, fails);
    let (one, other) = both(rt, one, settings.try_get_with(1, ok(8)))?;
    println!(rt; "settings: {one:?} and {other:?} at once")?;
    let later = settings.try_get_with(1, ok(7)).block_on(rt, 0)?;
    println!(rt; "settings: {later:?} after that")
}
