//! Listeners.

use crate::calls::{insert_once, once, run_opening};
use crate::keeping::{Board, cache_of, left};
use futures::executor::block_on;
use futures::future::join;
use futures::task::{Context, Poll};
use moka_cache::{CacheBuilder, Listener, ListenerEnd, PollError, Polled, RetriesExhausted, State};
use moka_cache_runs::asks::Asks;
use moka_cache_runs::caches::{Heard, HearsAny};
use moka_cache_runs::calls::Call::{Lent, Own};
use moka_cache_runs::calls::Caller;
use moka_cache_runs::calls::Kind::OfKey;
use moka_cache_runs::calls::OfKey::{Get, Insert, Remove};
use moka_cache_runs::inits::{After, DropsAfter};
use moka_cache_runs::numbers::numbers;
use moka_cache_runs::replies::Reply;
use moka_hist::Cause;
use std::alloc::{AllocError, AllocGlobal, Global};
use std::random::RandomSource;
use std::sync::atomic::{AtomicU64, Ordering};
use std::sync::{Arc, Wait};
use std::test::Fail;
use std::{io, thread};

const THREADS: u32 = 16;

const NOTICES: u64 = 64;

// Leaves each notice pending once, and counts those that it was started with.
#[derive(Drop)]
struct PendsOnce {
    polls: Vec<AtomicU64>,
    started: Arc<AtomicU64, Global>,
}

impl PendsOnce {
    fn new(alloc: Global, started: Arc<AtomicU64, Global>) -> Result<PendsOnce, AllocError> {
        let mut polls = Vec::new(alloc);
        for _ in 0..NOTICES {
            polls.push(AtomicU64::new(0))?;
        }
        Ok(PendsOnce { polls, started })
    }

    // Whether it is the first poll of the notice.
    fn is_first(&self, notice: u64) -> bool {
        match self.polls.get(notice as usize) {
            Some(polls) => polls.fetch_add(1, Ordering::SeqCst) == 0,
            None => false,
        }
    }
}

impl Listener<u32, u32> for PendsOnce {
    fn start(&self, _notice: u64, _key: &u32, _value: &u32, _cause: Cause) {
        self.started.fetch_add(1, Ordering::SeqCst);
    }

    fn poll(&self, notice: u64, cx: &mut Context<'_>) -> Poll<ListenerEnd> {
        if self.is_first(notice) {
            return cx.yield_now();
        }
        Poll::Ready(ListenerEnd::Done)
    }
}

impl HearsAny for PendsOnce {
    ghost hears_any = { λ listener key value. tt };
}

// Hears one record, and no further one.
#[derive(Drop)]
struct HearsOne {
    started: Arc<AtomicU64, Global>,
}

impl Listener<u32, u32> for HearsOne {
    fn start(&self, _notice: u64, _key: &u32, _value: &u32, _cause: Cause) {
        self.started.fetch_add(1, Ordering::SeqCst);
    }

    fn poll(&self, _notice: u64, _cx: &mut Context<'_>) -> Poll<ListenerEnd> {
        Poll::Ready(ListenerEnd::Off)
    }
}

impl HearsAny for HearsOne {
    ghost hears_any = { λ listener key value. tt };
}

// What two calls answered, one after the other.
type Both<A, B> = (Result<A, PollError>, Result<B, PollError>);

// Polls three calls in one task. The first is dropped after two polls.
fn beside<R: Wait + RandomSource + AllocGlobal, S: State<R, Output: Drop>, T>(
    rt: &R,
    dropped: S,
    other: S,
    third: T,
) -> io::Result<Both<S::Output, T::Output>>
where
    T: State<R, Output: Drop>,
    requires dropped { S.can_poll dropped }
    requires other { S.can_poll other }
    requires third { T.can_poll third }
{
    let dropped = DropsAfter {
        polls: 2,
        future: Some(Polled::new(rt, dropped, 0)),
    };
    let other = Polled::new(rt, other, 0);
    let third = Polled::new(rt, third, 0);
    let (_, both) = block_on(rt, join(dropped, join(other, third)))?;
    Ok(both)
}

// Loads key 1 twice, and stores 5 under it, in one task. The first load is dropped after two polls.
fn load_beside_insert<'a, R: Wait + RandomSource + AllocGlobal>(
    rt: &'a R,
    cache: &'a Heard<PendsOnce>,
    owner: After<'a>,
    waiter: After<'a>,
) -> io::Result<Both<Result<u32, RetriesExhausted>, ()>> {
    let owner = numbers(cache.get_with(1, owner));
    let waiter = numbers(cache.get_with(1, waiter));
    beside(rt, owner, waiter, numbers(cache.insert(1, 5)))
}

// Inserts under key 1, as long as it takes, and tells whether it did.
fn has_inserted<R: Wait + RandomSource + AllocGlobal>(
    rt: &R,
    cache: &Heard<PendsOnce>,
    value: u32,
) -> io::Result<bool> {
    let asks = &Asks::new();
    let caller = Caller { rt, cache, asks };
    Ok(caller.run(&Own(1, OfKey(Insert(value))))? == Reply::Done)
}

#[test]
fn a_get_goes_on_with_the_notice_of_a_dropped_insert(rt: HostRuntime) -> Result<(), Fail> {
    let board = Board::new(rt.alloc())?;
    let told: &Board = &board;
    let cache = cache_of(rt.alloc(), Arc::try_clone(&board)?)?;
    assert_eq!(rt; insert_once(&rt, &cache, 5)?, Reply::Done);
    assert_eq!(rt; insert_once(&rt, &cache, 6)?, Reply::Dropped);
    let first = left(2, 5, Cause::Replaced);
    assert_eq!(rt; told.told(), (1, first, first));
    let found = run_opening(&rt, &cache, &Lent(1, OfKey(Get)), told)?;
    assert_eq!(rt; found.0, Reply::Value(6));
    assert_eq!(rt; told.polls(), 2, "the first poll of the get is pending");
    assert_eq!(rt; insert_once(&rt, &cache, 7)?, Reply::Done);
    assert_eq!(rt; told.told(), (2, first, left(4, 6, Cause::Replaced)));
    let removed = once(&rt, &cache, &Lent(1, OfKey(Remove)))?;
    assert_eq!(rt; removed.0, Reply::Value(7));
    assert_eq!(rt; told.told(), (3, first, left(5, 7, Cause::Explicit)));
    Ok(())
}

#[test]
fn threads_insert_one_key_and_each_is_heard(rt: HostRuntime) -> Result<(), Fail> {
    let started = Arc::new(rt.alloc(), AtomicU64::new(0))?;
    let listener = PendsOnce::new(rt.alloc(), Arc::try_clone(&started)?)?;
    let cache: Heard<PendsOnce> = CacheBuilder::new(100)
        .eviction_listener(listener)
        .build(rt.alloc())?;
    let mut jobs = Vec::new(rt.alloc());
    for value in 0..THREADS {
        jobs.push((value, cache.clone()?))?;
    }
    let inserted = thread::map_vec(
        &rt,
        jobs,
        &|job: (u32, Heard<PendsOnce>)| { has_inserted(&rt, &job.1, job.0).unwrap_or(false) },
    )?;
    for done in inserted {
        assert!(rt; done);
    }
    assert_eq!(rt; started.load(Ordering::SeqCst), 15);
    let found = once(&rt, &cache, &Lent(1, OfKey(Get)))?;
    assert!(rt; matches!(found.0, Reply::Value(value) if value < THREADS));
    Ok(())
}

#[test]
fn a_waiter_answers_what_its_owner_stored_before_it_was_dropped(
    rt: HostRuntime,
) -> Result<(), Fail> {
    let started = Arc::new(rt.alloc(), AtomicU64::new(0))?;
    let listener = PendsOnce::new(rt.alloc(), Arc::try_clone(&started)?)?;
    let cache: Heard<PendsOnce> = CacheBuilder::new(100)
        .eviction_listener(listener)
        .build(rt.alloc())?;
    let (first, second) = (Asks::new(), Asks::new());
    let owner = After::polls(1, 7, &first);
    let waiter = After::polls(0, 6, &second);
    let (loaded, inserted) = load_beside_insert(&rt, &cache, owner, waiter)?;
    assert_eq!(rt; inserted, Ok(()));
    assert_eq!(rt; loaded, Ok(Ok(7)));
    assert_eq!(rt; (first.polls(), second.polls()), (2, 0));
    assert_eq!(rt; started.load(Ordering::SeqCst), 1);
    let found = once(&rt, &cache, &Lent(1, OfKey(Get)))?;
    assert_eq!(rt; found.0, Reply::Value(7));
    Ok(())
}

#[test]
fn a_listener_that_is_off_is_not_started_again(rt: HostRuntime) -> Result<(), Fail> {
    let first = Arc::new(rt.alloc(), AtomicU64::new(0))?;
    let second = Arc::new(rt.alloc(), AtomicU64::new(0))?;
    let cache: Heard<HearsOne> = CacheBuilder::new(100)
        .eviction_listener(HearsOne {
            started: Arc::try_clone(&first)?,
        })
        .async_eviction_listener(HearsOne {
            started: Arc::try_clone(&second)?,
        })
        .build(rt.alloc())?;
    for value in 5..8 {
        assert_eq!(rt; insert_once(&rt, &cache, value)?, Reply::Done);
    }
    let found = once(&rt, &cache, &Lent(1, OfKey(Get)))?;
    assert_eq!(rt; found.0, Reply::Value(7));
    assert_eq!(rt;
        first.load(Ordering::SeqCst),
        0,
        "the listener that was set before"
    );
    assert_eq!(rt; second.load(Ordering::SeqCst), 1);
    Ok(())
}
