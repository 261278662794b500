//! Loads whose initializers are futures, beside others.

use crate::playing::Runtime;
use futures::future::lazy;
use moka_cache::{Cache, RetriesExhausted};
use moka_cache_runs::asks::Asks;
use moka_cache_runs::caches::Numbers;
use moka_cache_runs::inits::After;
use std::io;
use std::test::Fail;

/// What a load gives.
type Loaded = io::Result<Result<u32, RetriesExhausted>>;

/// Loads the square of the key.
fn load_square<'a, R: Runtime>(rt: &'a R, cache: &'a Numbers, key: u32) -> Loaded {
    let square = lazy(move |_| key.wrapping_mul(key));
    cache.get_with(key, square).block_on(rt, 0)
}

/// Loads the key by an initializer that is no future.
fn load_after<'a, R: Runtime>(rt: &'a R, cache: &'a Numbers, key: u32, asks: &'a Asks) -> Loaded {
    let init = After::polls(2, 8, asks);
    cache.get_with(key, init).block_on(rt, 0)
}

#[test]
fn other_initializers_stand_beside_futures(rt: HostRuntime) -> Result<(), Fail> {
    let cache: Numbers = Cache::new(rt.alloc(), 100)?;
    let asks = Asks::new();
    let loaded = load_after(&rt, &cache, 3, &asks)?;
    let (found, another) = (load_square(&rt, &cache, 3)?, load_square(&rt, &cache, 4)?);
    assert_eq!(rt; [loaded, found, another], [Ok(8), Ok(8), Ok(16)]);
    assert_eq!(rt; asks.polls(), 3);
    Ok(())
}
