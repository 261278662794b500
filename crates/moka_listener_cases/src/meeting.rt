//! Notices of one key, which are never open at once.

use crate::calls::{insert_once, once};
use futures::executor::block_on;
use futures::future::join;
use futures::task::{Context, Poll};
use moka_cache::{CacheBuilder, Listener, ListenerEnd, PollError, Polled, State};
use moka_cache_runs::asks::Asks;
use moka_cache_runs::caches::{Heard, HearsAny};
use moka_cache_runs::calls::Call::{Lent, Own};
use moka_cache_runs::calls::Caller;
use moka_cache_runs::calls::Kind::OfKey;
use moka_cache_runs::calls::OfKey::{Get, Insert};
use moka_cache_runs::inits::DropsAfter;
use moka_cache_runs::numbers::numbers;
use moka_cache_runs::replies::Reply;
use moka_hist::Cause;
use std::alloc::{AllocError, AllocGlobal, Global};
use std::random::RandomSource;
use std::sync::atomic::{AtomicU64, Ordering};
use std::sync::{Arc, Wait};
use std::test::Fail;
use std::{io, thread};

const THREADS: u32 = 16;

const NOTICES: u64 = 64;

/// How often a poll of each notice is pending.
const PENDING: u64 = 2;

// What a listener saw of notices: how many were started, how many are open, and how often one was
// started while another was open.
#[derive(Drop)]
struct Seen {
    started: AtomicU64,
    open: AtomicU64,
    met: AtomicU64,
}

impl Seen {
    fn new() -> Seen {
        Seen {
            started: AtomicU64::new(0),
            open: AtomicU64::new(0),
            met: AtomicU64::new(0),
        }
    }

    fn starts(&self) {
        self.started.fetch_add(1, Ordering::SeqCst);
        if self.open.fetch_add(1, Ordering::SeqCst) > 0 {
            self.met.fetch_add(1, Ordering::SeqCst);
        }
    }

    fn ends(&self) {
        self.open.fetch_sub(1, Ordering::SeqCst);
    }
}

// Leaves each notice pending twice, and counts how many are open. Several tasks may poll for one.
#[derive(Drop)]
struct Watches {
    polls: Vec<AtomicU64>,
    seen: Arc<Seen, Global>,
}

impl Watches {
    fn new(alloc: Global, seen: Arc<Seen, Global>) -> Result<Watches, AllocError> {
        let mut polls = Vec::new(alloc);
        for _ in 0..NOTICES {
            polls.push(AtomicU64::new(0))?;
        }
        Ok(Watches { polls, seen })
    }

    // How often the notice was polled before.
    fn polled(&self, notice: u64) -> u64 {
        match self.polls.get(notice as usize) {
            Some(polls) => polls.fetch_add(1, Ordering::SeqCst),
            None => PENDING,
        }
    }
}

impl Listener<u32, u32> for Watches {
    fn start(&self, _notice: u64, _key: &u32, _value: &u32, _cause: Cause) {
        self.seen.starts();
    }

    fn poll(&self, notice: u64, cx: &mut Context<'_>) -> Poll<ListenerEnd> {
        let polled = self.polled(notice);
        if polled < PENDING {
            return cx.yield_now();
        }
        if polled == PENDING {
            self.seen.ends();
        }
        Poll::Ready(ListenerEnd::Done)
    }
}

impl HearsAny for Watches {
    ghost hears_any = { λ listener key value. tt };
}

// Inserts under key 1, as long as it takes, and tells whether it did.
fn has_inserted<R: Wait + RandomSource + AllocGlobal>(
    rt: &R,
    cache: &Heard<Watches>,
    value: u32,
) -> io::Result<bool> {
    let asks = &Asks::new();
    let caller = Caller { rt, cache, asks };
    Ok(caller.run(&Own(1, OfKey(Insert(value))))? == Reply::Done)
}

// Polls two calls in one task. The first is dropped after two polls. Tells what the other answered.
fn beside<R: Wait + RandomSource + AllocGlobal, S: State<R, Output: Drop>>(
    rt: &R,
    dropped: S,
    other: S,
) -> io::Result<Result<S::Output, PollError>>
    requires dropped { S.can_poll dropped }
    requires other { S.can_poll other }
{
    let dropped = DropsAfter {
        polls: 2,
        future: Some(Polled::new(rt, dropped, 0)),
    };
    let other = Polled::new(rt, other, 0);
    let (_, answer) = block_on(rt, join(dropped, other))?;
    Ok(answer)
}

// Inserts 6 and 7 under key 1, in one task. The insert of 6 is dropped after two polls, and that of 7
// waits for the lock by then.
fn insert_beside_dropped<R: Wait + RandomSource + AllocGlobal>(
    rt: &R,
    cache: &Heard<Watches>,
) -> io::Result<Result<(), PollError>> {
    let dropped = numbers(cache.insert(1, 6));
    beside(rt, dropped, numbers(cache.insert(1, 7)))
}

// Inserts under key 1: every third call is cancelled once it was polled. Tells whether it did what
// it was to do.
fn inserts_or_leaves<R: Wait + RandomSource + AllocGlobal>(
    rt: &R,
    cache: &Heard<Watches>,
    value: u32,
) -> io::Result<bool> {
    if value % 3 == 2 {
        let reply = insert_once(rt, cache, value)?;
        return Ok(matches!(reply, Reply::Done | Reply::Dropped));
    }
    has_inserted(rt, cache, value)
}

#[test]
fn an_insert_ends_the_notice_of_a_cancelled_one_before_its_own(
    rt: HostRuntime,
) -> Result<(), Fail> {
    let seen = Arc::new(rt.alloc(), Seen::new())?;
    let listener = Watches::new(rt.alloc(), Arc::try_clone(&seen)?)?;
    let cache: Heard<Watches> = CacheBuilder::new(100)
        .eviction_listener(listener)
        .build(rt.alloc())?;
    assert_eq!(rt; insert_once(&rt, &cache, 5)?, Reply::Done);
    assert_eq!(rt; insert_once(&rt, &cache, 6)?, Reply::Dropped);
    assert_eq!(rt;
        seen.open.load(Ordering::SeqCst),
        1,
        "of the cancelled call"
    );
    assert!(rt; has_inserted(&rt, &cache, 7)?);
    assert_eq!(rt; seen.started.load(Ordering::SeqCst), 2);
    assert_eq!(rt; seen.open.load(Ordering::SeqCst), 0);
    assert_eq!(rt; seen.met.load(Ordering::SeqCst), 0);
    let found = once(&rt, &cache, &Lent(1, OfKey(Get)))?;
    assert_eq!(rt; found.0, Reply::Value(7));
    Ok(())
}

#[test]
fn a_waiter_goes_on_with_the_notice_that_keeps_its_lock(rt: HostRuntime) -> Result<(), Fail> {
    let seen = Arc::new(rt.alloc(), Seen::new())?;
    let listener = Watches::new(rt.alloc(), Arc::try_clone(&seen)?)?;
    let cache: Heard<Watches> = CacheBuilder::new(100)
        .eviction_listener(listener)
        .build(rt.alloc())?;
    assert_eq!(rt; insert_once(&rt, &cache, 5)?, Reply::Done);
    assert_eq!(rt; insert_beside_dropped(&rt, &cache)?, Ok(()));
    assert_eq!(rt; seen.started.load(Ordering::SeqCst), 2);
    assert_eq!(rt; seen.open.load(Ordering::SeqCst), 0);
    assert_eq!(rt; seen.met.load(Ordering::SeqCst), 0);
    Ok(())
}

#[test]
fn notices_of_one_key_never_meet_though_threads_cancel(rt: HostRuntime) -> Result<(), Fail> {
    let seen = Arc::new(rt.alloc(), Seen::new())?;
    let listener = Watches::new(rt.alloc(), Arc::try_clone(&seen)?)?;
    let cache: Heard<Watches> = CacheBuilder::new(100)
        .eviction_listener(listener)
        .build(rt.alloc())?;
    let mut jobs = Vec::new(rt.alloc());
    for value in 0..THREADS {
        jobs.push((value, cache.clone()?))?;
    }
    let inserted = thread::map_vec(
        &rt,
        jobs,
        &|job: (u32, Heard<Watches>)| { inserts_or_leaves(&rt, &job.1, job.0).unwrap_or(false) },
    )?;
    for done in inserted {
        assert!(rt; done);
    }
    assert_eq!(rt; seen.met.load(Ordering::SeqCst), 0);
    assert!(rt; has_inserted(&rt, &cache, THREADS)?);
    assert_eq!(rt;
        seen.open.load(Ordering::SeqCst),
        0,
        "the insert has ended what was left"
    );
    assert_eq!(rt; seen.met.load(Ordering::SeqCst), 0);
    Ok(())
}
