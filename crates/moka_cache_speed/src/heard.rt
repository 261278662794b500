//! The caches, the listener that one of them has, and the time to idle of another.
ghost use Rattle.std.specs.Prelude.{ℕ};

use crate::numbers::Numbers;
use crate::works::Peer;
use moka_cache::{CacheBuilder, Listener, NoListener};
use moka_hist::Cause;
use std::alloc::{AllocError, Global};
use std::sync::atomic::{AtomicU64, Ordering};
use std::time::Duration;

/// A listener of a cache of numbers, which hears whatever leaves.
pub(crate) trait HearsAny: Listener<u64, u64> + 'static {
    /// It may be started with any key and value.
    ghost hears_any: { (listener : Self) (key : ℕ) (value : ℕ)
        → Self.Listener.hears listener key value };
}

impl HearsAny for NoListener {
    ghost hears_any = { λ listener key value. tt };
}

/// Counts the records that it hears of, and ends each notice at once.
#[derive(Drop)]
pub(crate) struct Counts {
    heard: AtomicU64,
}

impl Listener<u64, u64> for Counts {
    fn start(&self, _notice: u64, _key: &u64, _value: &u64, _cause: Cause) {
        self.heard.fetch_add(1, Ordering::SeqCst);
    }
}

impl HearsAny for Counts {
    ghost hears_any = { λ listener key value. tt };
}

/// Makes an empty cache whose listener has heard of nothing.
pub(crate) fn heard(alloc: Global) -> Result<Numbers<Counts>, AllocError> {
    let heard = AtomicU64::new(0);
    built(
        alloc,
        CacheBuilder::new(u64::MAX).eviction_listener(Counts { heard }),
    )
}

/// Makes an empty cache without a listener, for this peer.
pub(crate) fn unheard(alloc: Global, peer: Peer) -> Result<Numbers<NoListener>, AllocError> {
    let builder = CacheBuilder::default();
    match peer {
        Peer::Unbounded => built(alloc, builder),
        Peer::Idle => built(
            alloc,
            builder.max_capacity(u64::MAX).time_to_idle(an_hour()),
        ),
        Peer::Cache | Peer::Heard | Peer::Map => built(alloc, builder.max_capacity(u64::MAX)),
    }
}

/// A time that never passes: all calls come at one moment.
fn an_hour() -> Duration {
    Duration::from_secs(3600)
}

/// Builds the cache, whose times are short enough.
fn built<L: Listener<u64, u64>>(
    alloc: Global,
    builder: CacheBuilder<u64, u64, u64, L>,
) -> Result<Numbers<L>, AllocError> {
    match builder.build(alloc) {
        Ok(cache) => Ok(cache),
        Err(_) => Err(AllocError),
    }
}
