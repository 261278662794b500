//! Caches that are built.

use crate::playing::{Runtime, play_on};
use crate::telling::{has_text, is_io_error};
use moka_cache::{BuildError, Cache, CacheBuilder, NoListener};
use moka_cache_runs::asks::Asked::Never;
use moka_cache_runs::asks::{NOBODY, Told};
use moka_cache_runs::caches::Numbers;
use moka_cache_runs::calls::Call::{Lent, Own};
use moka_cache_runs::calls::Kind::OfKey;
use moka_cache_runs::calls::OfKey::{Get, Insert};
use moka_cache_runs::replies::Reply::{Done, Value};
use moka_cache_runs::rows::Event::Run;
use moka_cache_runs::rows::Row;
use std::alloc::Global;
use std::io;
use std::io::ErrorKind;
use std::test::Fail;
use std::time::Duration;

/// The capacity, the time to live and the time to idle that a cache tells.
fn limits(cache: &Numbers) -> (Option<u64>, Option<Duration>, Option<Duration>) {
    let policy = cache.policy();
    (
        policy.max_capacity(),
        policy.time_to_live(),
        policy.time_to_idle(),
    )
}

#[test]
fn a_built_cache_tells_its_policy(rt: HostRuntime) -> Result<(), Fail> {
    let cache: Numbers = CacheBuilder::new(100).build(rt.alloc())?;
    assert_eq!(rt; limits(&cache), (Some(100), None, None));
    assert_eq!(rt; cache.policy().num_segments(), 1);
    assert_eq!(rt; cache.name(), None);
    let rows = [
        Row(Run(Own(1, OfKey(Insert(5)))), Told(Done, 0, Never), NOBODY),
        Row(Run(Lent(1, OfKey(Get))), Told(Value(5), 0, Never), NOBODY),
    ];
    play_on(&rt, cache, &rows)
}

#[test]
fn a_default_cache_has_no_bound(rt: HostRuntime) -> Result<(), Fail> {
    let cache: Numbers = Cache::builder()
        .name(format!(in rt.alloc(); "numbers")?)
        .initial_capacity(16)
        .build(rt.alloc())?;
    assert_eq!(rt; limits(&cache), (None, None, None));
    assert_eq!(rt; cache.name(), Some("numbers"));
    Ok(())
}

/// A thousand years of 365 days, and so many nanoseconds.
fn millennium_and(nanos: u32) -> Duration {
    Duration::new(31_536_000_000, nanos)
}

/// What a cache of numbers is built by.
type Builder = CacheBuilder<u32, u32, u32, NoListener>;

/// Why no cache of these times is built, if none is.
fn refusal(alloc: Global, builder: Builder) -> Option<BuildError> {
    match builder.build(alloc) {
        Ok(cache) => {
            drop(cache);
            None
        }
        Err(refusal) => Some(refusal),
    }
}

#[test]
fn a_time_is_a_thousand_years_at_most(rt: HostRuntime) -> Result<(), Fail> {
    let longest = millennium_and(0);
    let cache: Numbers = Cache::builder()
        .time_to_live(longest)
        .time_to_idle(longest)
        .build(rt.alloc())?;
    assert_eq!(rt; limits(&cache), (None, Some(longest), Some(longest)));
    Ok(())
}

#[test]
fn a_longer_time_is_refused(rt: HostRuntime) {
    let too_long = millennium_and(1);
    let live = Builder::new(9).time_to_live(too_long);
    let idle = Builder::new(9).time_to_idle(too_long);
    let both = Builder::new(9)
        .time_to_idle(too_long)
        .time_to_live(too_long);
    let refused = [
        refusal(rt.alloc(), live),
        refusal(rt.alloc(), idle),
        refusal(rt.alloc(), both),
    ];
    assert_eq!(rt;
        refused,
        [
            Some(BuildError::TimeToLiveTooLong),
            Some(BuildError::TimeToIdleTooLong),
            Some(BuildError::TimeToLiveTooLong)
        ]
    );
}

/// Whether this is the text of the refusal, and of the `io::Error` of this kind that it becomes.
fn is_told<R: Runtime>(rt: &R, refusal: BuildError, kind: ErrorKind, text: &str) -> bool {
    has_text(rt, &refusal, text) && is_io_error(rt, &io::Error::from(refusal), kind, text)
}

#[test]
fn why_no_cache_is_built_is_an_error_with_a_text(rt: HostRuntime) {
    let cases = [
        (
            BuildError::TimeToLiveTooLong,
            ErrorKind::InvalidInput,
            "time_to_live is longer than 1000 years",
        ),
        (
            BuildError::TimeToIdleTooLong,
            ErrorKind::InvalidInput,
            "time_to_idle is longer than 1000 years",
        ),
        (BuildError::Memory, ErrorKind::OutOfMemory, "out of memory"),
    ];
    for (refusal, kind, text) in cases {
        assert!(rt; is_told(&rt, refusal, kind, text), "{text}");
    }
}
