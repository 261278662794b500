//! Calls of a cache, each run by one task.
//!
//! What runs a call is generic over it. That a call is a `State` is shown in `CacheCall::block_on`,
//! and not where each test runs one.
ghost use Rattle.moka_cache.specs.Settings.{rules_of};
ghost use Rattle.moka_cache_runs.specs.Runs.{CanRun};

use moka_cache::{Anything, Asked, Begin, CacheCall, Listener};
use moka_values::Exact;
use std::alloc::AllocGlobal;
use std::hash::{BuildHasher, Hash};
use std::io;
use std::random::RandomSource;
use std::sync::Wait;

/// Runs the call to its end, at moment 0.
pub fn run<R, A, K, V, E, Q, L, S>(
    rt: &R,
    call: CacheCall<'_, A, K, V, E, Q, L, S>,
) -> io::Result<A::Output>
where
    R: Wait + RandomSource + AllocGlobal,
    A: Begin<K, V, E>,
    K: Eq + Hash + Exact,
    V: Exact,
    E: Exact,
    Q: Asked<K, V, E, Anything>,
    L: Listener<K, V>,
    S: BuildHasher + Drop,
    requires can { CanRun K.eq A.start A.output Q.can_poll Q.gives (rules_of call.cache.now)
        call.stage call.asked }
    requires hears { (l : L) (key : K) (value : V) → L.hears l key value }
{
    call.block_on(rt, 0)
}
