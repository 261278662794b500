//! What was inserted, and what is found.

use crate::playing::Runtime;
use moka_cache::{Cache, Listener};
use moka_cache_runs::asks::Asked::Never;
use moka_cache_runs::asks::{NOBODY, Told};
use moka_cache_runs::caches::Numbers;
use moka_cache_runs::calls::Call::{Lent, Own};
use moka_cache_runs::calls::Kind::OfKey;
use moka_cache_runs::calls::OfKey::{Get, Insert};
use moka_cache_runs::replies::Reply::{Done, Value};
use moka_cache_runs::rows::Event::RunAt;
use moka_cache_runs::rows::{Row, wrong_row_on};
use std::hash::{BuildHasher, Hash};
use std::io;
use std::test::Fail;

// Takes what any thread may have and share.
fn is_shared<T: Send + Sync>(_shared: &T) {}

// A cache crosses threads where its keys, values, errors, listener and hasher do.
fn crosses_threads<K, V, E, L, S>(cache: &Cache<K, V, E, L, S>)
where
    K: Eq + Hash + Clone + Drop + Send + Sync,
    V: Clone + Drop + Send + Sync,
    E: Clone + Drop + Send + Sync,
    L: Listener<K, V> + Send + Sync,
    S: BuildHasher + Drop + Send + Sync,
{
    is_shared(cache);
}

// Stores the value by a cache at 3, and tells whether its clone finds it at 2.
fn is_found<R: Runtime>(rt: &R, cache: &Numbers, clone: &Numbers, value: u32) -> io::Result<bool> {
    let store = RunAt(3, Own(7, OfKey(Insert(value))));
    let look = RunAt(2, Lent(7, OfKey(Get)));
    let stored = wrong_row_on(rt, cache, &[Row(store, Told(Done, 0, Never), NOBODY)])?;
    let found = wrong_row_on(
        rt,
        clone,
        &[Row(look, Told(Value(value), 0, Never), NOBODY)],
    )?;
    Ok(stored.is_none() && found.is_none())
}

#[test]
fn a_later_insert_replaces(rt: HostRuntime) -> Result<(), Fail> {
    let cache: Numbers = Cache::new(rt.alloc(), 100)?;
    let shared = cache.clone()?;
    crosses_threads(&shared);
    for value in 0..1000 {
        assert!(rt; is_found(&rt, &cache, &shared, value)?, "{value}");
    }
    Ok(())
}
