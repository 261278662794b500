//! A listener that divides by what leaves.
ghost use Rattle.std.specs.Prelude.{◌<◌};

use crate::answers::Runtime;
use moka_cache::{Cache, CacheBuilder, Fact, FixedSeed, Listener};
use moka_hist::Cause;
use std::alloc::Global;
use std::io;
use std::sync::atomic::{AtomicU64, Ordering};

/// The fact of the cache: no value is 0.
struct NeverZero;

impl Fact<u32, u32> for NeverZero {
    ghost holds = { λ key value. 0 < value };

    ghost alike = { λ a b value same so. so };
}

/// Adds up how often each value that leaves goes into 420. It hears of none that is 0.
#[derive(Drop)]
struct Shares<'a>(&'a AtomicU64);

impl Listener<u32, u32> for Shares<'_> {
    ghost hears = { λ shares key value. 0 < value };

    fn start(&self, _notice: u64, _key: &u32, value: &u32, _cause: Cause) {
        self.0.fetch_add(u64::from(420 / *value), Ordering::SeqCst);
    }
}

/// Numbers of which none is 0, with a listener that divides by them.
type Divisors<'a> = Cache<u32, u32, (), Shares<'a>, FixedSeed, NeverZero>;

/// Stores three values under key 1, one after the other, takes the last one out, and adds up how
/// often each goes into 420.
pub(crate) fn show<R: Runtime>(rt: &R, alloc: Global) -> io::Result<()> {
    let sum = AtomicU64::new(0);
    let cache: Divisors<'_> = CacheBuilder::new(100)
        .eviction_listener(Shares(&sum))
        .such::<NeverZero>()
        .build(alloc)?;
    cache.insert(1, 5).block_on(rt, 0)?;
    cache.insert(1, 6).block_on(rt, 0)?;
    cache.insert(1, 7).block_on(rt, 0)?;
    cache.invalidate(&1).block_on(rt, 0)?;
    let sum = sum.load(Ordering::SeqCst);
    println!(rt; "shares: {sum} of 420 by three that left")
}
