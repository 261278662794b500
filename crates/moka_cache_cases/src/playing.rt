//! Rows that are played, and must be told what they say.

use moka_cache_runs::caches::Numbers;
use moka_cache_runs::rows::{Row, wrong_row, wrong_row_on};
use std::alloc::AllocGlobal;
use std::process::Abort;
use std::random::RandomSource;
use std::sync::Wait;
use std::test::Fail;

/// The runtime of a test: calls of a cache may wait with it, and it ends a test that fails.
pub(crate) trait Runtime: Abort + Wait + RandomSource + AllocGlobal {}

impl<R: Abort + Wait + RandomSource + AllocGlobal> Runtime for R {}

/// Plays the rows on a new cache of this capacity, and fails at the first of which another thing is
/// told.
pub(crate) fn play<R: Runtime>(rt: &R, capacity: u64, rows: &[Row]) -> Result<(), Fail> {
    assert_eq!(rt; wrong_row(rt, capacity, rows)?, None);
    Ok(())
}

/// Plays them on this cache, and lets it go.
pub(crate) fn play_on<R: Runtime>(rt: &R, cache: Numbers, rows: &[Row]) -> Result<(), Fail> {
    let wrong = wrong_row_on(rt, &cache, rows);
    drop(cache);
    assert_eq!(rt; wrong?, None);
    Ok(())
}
