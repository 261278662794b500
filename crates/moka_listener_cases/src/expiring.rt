//! Causes of records that have expired, or were invalidated, as a listener hears them.

use crate::keeping::{Board, KeepListener, Started, left};
use moka_cache::{BuildError, CacheBuilder};
use moka_cache_runs::asks::Asked::{Never, Starts};
use moka_cache_runs::asks::{NOBODY, Told};
use moka_cache_runs::caches::Heard;
use moka_cache_runs::calls::Call::{self, Own};
use moka_cache_runs::calls::Compute::ComputeWith;
use moka_cache_runs::calls::Gives;
use moka_cache_runs::calls::Kind::{Compute, OfKey};
use moka_cache_runs::calls::OfKey::{Get, Insert, Invalidate, Remove};
use moka_cache_runs::inits::Act;
use moka_cache_runs::replies::Reply::{self, Done, Inserted, Value};
use moka_cache_runs::replies::Seen::Fresh;
use moka_cache_runs::rows::Event::{InvalidateAll, RunAt};
use moka_cache_runs::rows::{Row, wrong_row_on};
use moka_hist::Cause;
use std::alloc::{AllocGlobal, Global};
use std::process::Abort;
use std::random::RandomSource;
use std::sync::{Arc, Wait};
use std::test::Fail;
use std::time::Duration;

const INSERT: Call = Own(1, OfKey(Insert(5)));

const AGAIN: Call = Own(1, OfKey(Insert(6)));

const REMOVE: Call = Own(1, OfKey(Remove));

/// What is told of a call that asks nobody.
const fn told(reply: Reply) -> Told {
    Told(reply, 0, Never)
}

/// What a cache is built by.
type Builder = CacheBuilder<u32, u32, u32>;

/// Builds the cache, with a listener of this board that ends each notice at once.
fn heard(
    alloc: Global,
    builder: Builder,
    board: Arc<Board, Global>,
) -> Result<Heard<KeepListener>, BuildError> {
    board.open();
    builder
        .eviction_listener(KeepListener { board })
        .build(alloc)
}

/// Of a time to live of 10 nanoseconds.
fn living() -> Builder {
    Builder::new(100).time_to_live(Duration::from_nanos(10))
}

/// Of a time to idle of 10 nanoseconds.
fn idling() -> Builder {
    Builder::new(100).time_to_idle(Duration::from_nanos(10))
}

/// How many records a listener was told of, and the first and the last of them.
type HeardSo = (u64, Option<Started>, Option<Started>);

/// Plays the rows on a cache that is built so, and fails where another thing is told of them, or the
/// listener is told another thing.
fn play<R: Abort + Wait + RandomSource + AllocGlobal>(
    rt: &R,
    builder: Builder,
    rows: &[Row],
    told: HeardSo,
) -> Result<(), Fail> {
    let board = Board::new(rt.alloc())?;
    let cache = heard(rt.alloc(), builder, Arc::try_clone(&board)?)?;
    let wrong = wrong_row_on(rt, &cache, rows);
    drop(cache);
    assert_eq!(rt; wrong?, None);
    assert_eq!(rt; board.told(), told);
    Ok(())
}

#[test]
fn what_is_replaced_past_its_time_has_expired(rt: HostRuntime) -> Result<(), Fail> {
    let rows = [
        Row(RunAt(0, INSERT), told(Done), NOBODY),
        Row(RunAt(9, AGAIN), told(Done), NOBODY),
        Row(RunAt(19, INSERT), told(Done), NOBODY),
    ];
    let told = (2, left(2, 5, Cause::Replaced), left(3, 6, Cause::Expired));
    play(&rt, living(), &rows, told)?;
    play(&rt, idling(), &rows, told)
}

#[test]
fn what_is_removed_past_its_time_has_expired(rt: HostRuntime) -> Result<(), Fail> {
    let rows = [
        Row(RunAt(0, INSERT), told(Done), NOBODY),
        Row(RunAt(9, REMOVE), told(Value(5)), NOBODY),
        Row(RunAt(9, AGAIN), told(Done), NOBODY),
        Row(RunAt(19, REMOVE), told(Value(6)), NOBODY),
    ];
    let told = (2, left(2, 5, Cause::Explicit), left(4, 6, Cause::Expired));
    play(&rt, living(), &rows, told)?;
    play(&rt, idling(), &rows, told)
}

// It is past its time to idle, too, and a removal tells that.
#[test]
fn what_is_replaced_once_invalidated_left_explicitly(rt: HostRuntime) -> Result<(), Fail> {
    let rows = [
        Row(RunAt(0, INSERT), told(Done), NOBODY),
        Row(InvalidateAll(20), told(Done), NOBODY),
        Row(RunAt(20, AGAIN), told(Done), NOBODY),
        Row(InvalidateAll(30), told(Done), NOBODY),
        Row(RunAt(30, REMOVE), told(Value(6)), NOBODY),
    ];
    let first = left(2, 5, Cause::Explicit);
    play(&rt, idling(), &rows, (2, first, left(3, 6, Cause::Expired)))
}

#[test]
fn what_lived_too_long_has_expired_once_invalidated(rt: HostRuntime) -> Result<(), Fail> {
    let rows = [
        Row(RunAt(0, INSERT), told(Done), NOBODY),
        Row(InvalidateAll(10), told(Done), NOBODY),
        Row(RunAt(10, AGAIN), told(Done), NOBODY),
    ];
    let first = left(2, 5, Cause::Expired);
    play(&rt, living(), &rows, (1, first, first))
}

#[test]
fn a_put_over_what_has_expired_is_told_so(rt: HostRuntime) -> Result<(), Fail> {
    let put = Own(1, Compute(ComputeWith(Gives(0, Act::Put(7)))));
    let rows = [
        Row(RunAt(0, INSERT), told(Done), NOBODY),
        Row(RunAt(9, Own(1, OfKey(Get))), told(Value(5)), NOBODY),
        Row(
            RunAt(19, put),
            Told(Inserted(Fresh(1, 7)), 1, Starts(1, None)),
            NOBODY,
        ),
        Row(RunAt(19, Own(1, OfKey(Invalidate))), told(Done), NOBODY),
    ];
    let first = left(3, 5, Cause::Expired);
    play(
        &rt,
        idling(),
        &rows,
        (2, first, left(4, 7, Cause::Explicit)),
    )
}

#[test]
fn invalidating_all_tells_the_listener_nothing(rt: HostRuntime) -> Result<(), Fail> {
    let rows = [
        Row(RunAt(0, INSERT), told(Done), NOBODY),
        Row(InvalidateAll(1), told(Done), NOBODY),
        Row(RunAt(1, Own(1, OfKey(Get))), told(Reply::Nothing), NOBODY),
    ];
    play(&rt, Builder::new(100), &rows, (0, None, None))
}
