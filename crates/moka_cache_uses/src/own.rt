//! Types of one's own beside futures and closures, in one cache.
ghost use Rattle.moka_cache.specs.Asked.{IsPut};

use crate::answers::Runtime;
use futures::future::ready;
use futures::task::{Context, Poll};
use moka_cache::{Cache, CacheBuilder, Compute, Init, Listener, value_by};
use moka_hist::{Cause, Entry, Op};
use std::alloc::Global;
use std::io;
use std::sync::atomic::{AtomicU64, Ordering};

/// A cache of numbers, with this listener.
type Numbers<L> = Cache<u32, u32, (), L>;

/// Gives this at its first poll.
#[derive(Drop)]
struct Gives(u32);

impl Init<u32> for Gives {
    fn poll(&mut self, _cx: &mut Context<'_>) -> Poll<u32> {
        Poll::Ready(self.0)
    }
}

/// Stores this, whatever was found.
#[derive(Drop)]
struct Stores(u32);

impl Compute<u32, u32, ()> for Stores {
    ghost gives = { λ stores told. IsPut told };

    fn start(&mut self, _found: Option<&Entry<u32, u32>>) {}

    fn poll(&mut self, _cx: &mut Context<'_>) -> Poll<Result<Op<u32>, ()>> {
        Poll::Ready(Ok(Op::Put(self.0)))
    }
}

/// Counts what was replaced.
#[derive(Drop)]
struct Replaced<'a>(&'a AtomicU64);

impl Listener<u32, u32> for Replaced<'_> {
    fn start(&self, _notice: u64, _key: &u32, _value: &u32, cause: Cause) {
        if cause == Cause::Replaced {
            self.0.fetch_add(1, Ordering::SeqCst);
        }
    }
}

/// Loads two keys and computes one of them twice, each time by a type and by a future or a closure.
/// Tells what the key has then.
fn load_and_compute<R: Runtime, L: Listener<u32, u32>>(
    rt: &R,
    cache: &Numbers<L>,
) -> io::Result<(u32, u32, u32)>
    requires hears { (l : L) (key : _) (value : _) → L.hears l key value }
{
    let own = cache.get_with(1, Gives(5)).block_on(rt, 0)??;
    let other = cache.get_with(2, ready(6)).block_on(rt, 0)??;
    cache.entry(1).and_upsert_with(Stores(7)).block_on(rt, 0)?;
    let one_more = value_by(|found: Option<&Entry<u32, u32>>| {
        ready(found.map_or(0, |entry| entry.value.saturating_add(1)))
    });
    let last = cache.entry(1).and_upsert_with(one_more).block_on(rt, 0)?;
    Ok((own, other, last.value))
}

/// Loads and computes in two caches: one whose listener is a type of one's own, one whose listener is
/// a closure.
pub(crate) fn show<R: Runtime>(rt: &R, alloc: Global) -> io::Result<()> {
    let (own, closure) = (AtomicU64::new(0), AtomicU64::new(0));
    let cache = CacheBuilder::new(100)
        .eviction_listener(Replaced(&own))
        .build(alloc)?;
    let first = load_and_compute(rt, &cache)?;
    let cache = CacheBuilder::new(100)
        .async_eviction_listener(|_key: &u32, _value: &u32, _cause| {
            closure.fetch_add(1, Ordering::SeqCst);
        })
        .build(alloc)?;
    let second = load_and_compute(rt, &cache)?;
    let (own, closure) = (own.load(Ordering::SeqCst), closure.load(Ordering::SeqCst));
    println!(rt; "own: {first:?} heard {own}, and {second:?} heard {closure}")
}
