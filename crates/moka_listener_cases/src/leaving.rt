//! Calls of a key whose record leaves, and is being heard.

use crate::calls::{insert_once, once, run_opening};
use crate::keeping::{Board, KeepListener, Opens, cache_of, left};
use futures::executor::block_on;
use futures::future::join;
use moka_cache::{PollError, Polled, State};
use moka_cache_runs::asks::Asked::Starts;
use moka_cache_runs::asks::Told;
use moka_cache_runs::caches::Heard;
use moka_cache_runs::calls::Call::{self, Own};
use moka_cache_runs::calls::Compute::ComputeWith;
use moka_cache_runs::calls::Gives;
use moka_cache_runs::calls::Kind::Compute;
use moka_cache_runs::inits::Act;
use moka_cache_runs::numbers::numbers;
use moka_cache_runs::replies::{Reply, Seen};
use moka_hist::{Cause, Entry};
use std::alloc::AllocGlobal;
use std::io;
use std::random::RandomSource;
use std::sync::{Arc, Wait};
use std::test::Fail;

// The entry of key 1 with this value, which was stored where there was none.
fn stored(value: u32) -> Entry<u32, u32> {
    Entry {
        key: Some(1),
        value,
        fresh: true,
        replaced: false,
    }
}

// A compute on key 1 that stores the value at once.
fn put(value: u32) -> Call {
    Own(1, Compute(ComputeWith(Gives(0, Act::Put(value)))))
}

// What a removal and two calls beside it answered.
type Three<A, B> = (
    Result<A, PollError>,
    (Result<B, PollError>, Result<B, PollError>),
);

// Polls the three in one task, and lets the listener go after each poll of the others.
fn beside_first<R: Wait + RandomSource + AllocGlobal, F, S>(
    rt: &R,
    first: F,
    one: S,
    other: S,
    board: &Board,
) -> io::Result<Three<F::Output, S::Output>>
where
    F: State<R, Output: Drop>,
    S: State<R, Output: Drop>,
    requires first { F.can_poll first }
    requires one { S.can_poll one }
    requires other { S.can_poll other }
{
    let first = Polled::new(rt, first, 0);
    let one = Polled::new(rt, one, 0);
    let future = join(one, Polled::new(rt, other, 0));
    block_on(rt, join(first, Opens { future, board }))
}

// Removes key 1, and stores 6 and 7 beside that where there is nothing.
fn store_beside_removal<'a, R: Wait + RandomSource + AllocGlobal>(
    rt: &'a R,
    cache: &'a Heard<KeepListener>,
    board: &'a Board,
) -> io::Result<Three<Option<u32>, Entry<u32, u32>>> {
    let one = numbers(cache.entry(1).or_insert(6));
    let other = numbers(cache.entry_by_ref(&1).or_insert(7));
    beside_first(rt, numbers(cache.remove(&1)), one, other, board)
}

#[test]
fn a_compute_waits_for_the_notice_of_a_dropped_one(rt: HostRuntime) -> Result<(), Fail> {
    let board = Board::new(rt.alloc())?;
    let told: &Board = &board;
    let cache = cache_of(rt.alloc(), Arc::try_clone(&board)?)?;
    assert_eq!(rt; insert_once(&rt, &cache, 5)?, Reply::Done);
    assert_eq!(rt;
        once(&rt, &cache, &put(6))?,
        Told(Reply::Dropped, 1, Starts(1, Some(5))),
        "dropped in its notice"
    );
    let first = left(2, 5, Cause::Replaced);
    assert_eq!(rt; told.told(), (1, first, first));
    let replaced = Reply::ReplacedWith(Seen::Replaced(1, 7));
    assert_eq!(rt;
        run_opening(&rt, &cache, &put(7), told)?,
        Told(replaced, 1, Starts(1, Some(6)))
    );
    assert_eq!(rt; told.polls(), 2, "its first poll is pending");
    assert_eq!(rt; told.told(), (2, first, left(3, 6, Cause::Replaced)));
    Ok(())
}

#[test]
fn a_compute_is_not_polled_while_its_write_is_heard(rt: HostRuntime) -> Result<(), Fail> {
    let board = Board::new(rt.alloc())?;
    let told: &Board = &board;
    let cache = cache_of(rt.alloc(), Arc::try_clone(&board)?)?;
    assert_eq!(rt; insert_once(&rt, &cache, 5)?, Reply::Done);
    let replaced = Reply::ReplacedWith(Seen::Replaced(1, 6));
    assert_eq!(rt;
        run_opening(&rt, &cache, &put(6), told)?,
        Told(replaced, 1, Starts(1, Some(5)))
    );
    assert_eq!(rt; told.polls(), 2, "of the call");
    Ok(())
}

#[test]
fn two_that_store_while_a_removal_is_heard_are_both_fresh(rt: HostRuntime) -> Result<(), Fail> {
    let board = Board::new(rt.alloc())?;
    let told: &Board = &board;
    let cache = cache_of(rt.alloc(), Arc::try_clone(&board)?)?;
    assert_eq!(rt; insert_once(&rt, &cache, 5)?, Reply::Done);
    let (removed, both) = store_beside_removal(&rt, &cache, told)?;
    assert_eq!(rt; removed, Ok(Some(5)));
    assert_eq!(rt; both, (Ok(stored(6)), Ok(stored(7))));
    let first = left(2, 5, Cause::Explicit);
    assert_eq!(rt; told.told(), (2, first, left(4, 6, Cause::Replaced)));
    Ok(())
}
