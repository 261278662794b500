//! What a timer does to a call. A driver of timers is turned by hand here: a runtime, which turns
//! one, takes the network's handle.

use futures::future::{pending, ready};
use futures::task::Poll;
use futures::test::MockTask;
use moka_cache::{Cache, Polled, State};
use std::alloc::AllocGlobal;
use std::io;
use std::random::RandomSource;
use std::sync::Wait;
use std::test::Fail;
use std::time::{Clock, Duration, Instant};
use tokio::time::Driver;

/// What was seen of a call that waits for another, which a timer gives up.
#[derive(Debug, PartialEq, Drop)]
struct Seen<T> {
    /// The other call had answered, or the timer had not fired.
    is_in_time: bool,
    /// It was woken before the other was dropped.
    is_woken_early: bool,
    /// It was woken once the other was dropped.
    is_woken: bool,
    /// What it answered then, if it did.
    answer: Option<T>,
}

/// Gives the first call up while the second waits for it.
fn give_up<R, A, B>(rt: &R, dropped: A, other: B) -> io::Result<Option<Seen<B::Output>>>
where
    R: Wait + Clock + RandomSource + AllocGlobal,
    A: State<R, Output: Drop>,
    B: State<R, Output: Drop>,
    requires dropped { A.can_poll dropped }
    requires other { B.can_poll other }
{
    let (dropped, mut other) = (Polled::new(rt, dropped, 0), Polled::new(rt, other, 0));
    let (one, another, clock) = (MockTask::new(rt)?, MockTask::new(rt)?, MockTask::new(rt)?);
    let start = Instant::now(rt)?;
    let late = start
        .checked_add(Duration::from_millis(20))
        .unwrap_or(start);
    let mut driver = Driver::new(rt.alloc(), start)?;
    let mut dropped = driver.handle().timeout_at(late, dropped)?;
    let Poll::Pending = one.poll(&mut dropped) else {
        return Ok(None);
    };
    let Poll::Pending = another.poll(&mut other) else {
        return Ok(None);
    };
    clock.enter(|cx| driver.turn(cx, late));
    let is_in_time = !matches!(one.poll(&mut dropped), Poll::Ready(Err(_)));
    let is_woken_early = another.is_woken();
    drop(dropped);
    let is_woken = another.is_woken();
    let answer = match another.poll(&mut other) {
        Poll::Ready(Ok(answer)) => Some(answer),
        _ => None,
    };
    Ok(Some(Seen {
        is_in_time,
        is_woken_early,
        is_woken,
        answer,
    }))
}

#[test]
fn a_load_that_is_given_up_is_left_to_one_that_waits(rt: HostRuntime) -> Result<(), Fail> {
    let cache: Cache<u32, u64> = Cache::new(rt.alloc(), 100)?;
    let owner = cache.get_with(1, pending());
    let seen = give_up(&rt, owner, cache.get_with(1, ready(9)))?;
    let wanted = Seen {
        is_in_time: false,
        is_woken_early: false,
        is_woken: true,
        answer: Some(Ok(9)),
    };
    assert_eq!(rt; seen, Some(wanted));
    Ok(())
}
