//! A load that carries a record while its replace test is asked, of a cache with a time to idle.

use crate::playing::Runtime;
use moka_cache::CacheBuilder;
use moka_cache_runs::asks::Asked::Never;
use moka_cache_runs::asks::{Asks, NOBODY, Told};
use moka_cache_runs::caches::Numbers;
use moka_cache_runs::calls::Call::{Lent, Own};
use moka_cache_runs::calls::Kind::OfKey;
use moka_cache_runs::calls::OfKey::{Get, Insert, Remove};
use moka_cache_runs::inits::After;
use moka_cache_runs::replies::Reply::{Done, Is, Value};
use moka_cache_runs::rows::Event::{HasAt, RunAt};
use moka_cache_runs::rows::{Row, wrong_row_on};
use std::io;
use std::test::Fail;
use std::time::Duration;

/// The moment at which the load is polled.
const LATE: u64 = 17;

/// Whether all rows are told so on this cache.
fn are_told<R: Runtime>(rt: &R, cache: &Numbers, rows: &[Row]) -> io::Result<bool> {
    Ok(wrong_row_on(rt, cache, rows)?.is_none())
}

/// Takes key 1 out, and stores as many others as the log has room for, so that this is applied.
fn take_out<R: Runtime>(rt: &R, cache: &Numbers) -> io::Result<bool> {
    let remove = RunAt(LATE, Lent(1, OfKey(Remove)));
    let mut is_right = are_told(rt, cache, &[Row(remove, Told(Value(5), 0, Never), NOBODY)])?;
    for key in 2..500 {
        let store = RunAt(LATE, Own(key, OfKey(Insert(0))));
        is_right &= are_told(rt, cache, &[Row(store, Told(Done, 0, Never), NOBODY)])?;
    }
    Ok(is_right)
}

/// Loads key 1 at 17, and takes it out while its replace test is asked.
fn load_beside<R: Runtime>(rt: &R, cache: &Numbers) -> io::Result<bool> {
    let asks = &Asks::new();
    let load = cache.get_with_if(
        1,
        After::polls(0, 9, asks),
        move |_value: &u32| !matches!(take_out(rt, cache), Ok(true)),
    );
    let loaded = load.block_on(rt, LATE)?;
    Ok(loaded == Ok(5) && asks.polls() == 0)
}

// It is stored at 0 and looked at at 8.
#[test]
fn a_load_judges_what_it_carries_by_its_last_look(rt: HostRuntime) -> Result<(), Fail> {
    let cache: Numbers = CacheBuilder::new(1000)
        .time_to_idle(Duration::from_nanos(10))
        .build(rt.alloc())?;
    let store = RunAt(0, Own(1, OfKey(Insert(5))));
    let look = RunAt(8, Lent(1, OfKey(Get)));
    let before = [
        Row(store, Told(Done, 0, Never), NOBODY),
        Row(look, Told(Value(5), 0, Never), NOBODY),
    ];
    assert!(rt; are_told(&rt, &cache, &before)?);
    assert!(rt; load_beside(&rt, &cache)?, "visible by the look at 8");
    let after = [Row(HasAt(LATE, 1), Told(Is(false), 0, Never), NOBODY)];
    assert!(rt; are_told(&rt, &cache, &after)?);
    Ok(())
}
