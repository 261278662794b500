//! Records that expire, by a time to live or by a time to idle.

use crate::playing::play_on;
use moka_cache::CacheBuilder;
use moka_cache_runs::asks::Asked::{Never, Starts, Tests};
use moka_cache_runs::asks::{NOBODY, Told};
use moka_cache_runs::caches::Numbers;
use moka_cache_runs::calls::Call::{self, Lent, Own};
use moka_cache_runs::calls::Compute::{ComputeWith, UpsertWith};
use moka_cache_runs::calls::Gives;
use moka_cache_runs::calls::Kind::{Compute, Load, OfKey};
use moka_cache_runs::calls::Load::{GetWith, GetWithIf};
use moka_cache_runs::calls::OfKey::{Get, Insert, Remove};
use moka_cache_runs::calls::Test::IfEven;
use moka_cache_runs::inits::Act;
use moka_cache_runs::replies::Reply::{
    self, Done, Entry, Inserted, Is, Nothing, Removed, StillNone, Value,
};
use moka_cache_runs::replies::Seen::{Found, Fresh};
use moka_cache_runs::rows::Event::{Both, HasAt, Run, RunAt};
use moka_cache_runs::rows::Row;
use std::alloc::Global;
use std::test::Fail;
use std::time::Duration;

const INSERT: Call = Own(1, OfKey(Insert(5)));

const GET: Call = Lent(1, OfKey(Get));

/// What is told of a call that asks nobody.
const fn told(reply: Reply) -> Told {
    Told(reply, 0, Never)
}

/// A cache whose records live for so many nanoseconds.
fn living(alloc: Global, nanos: u64) -> Result<Numbers, Fail> {
    let live = Duration::from_nanos(nanos);
    Ok(CacheBuilder::new(100).time_to_live(live).build(alloc)?)
}

/// A cache whose records may be idle for so many nanoseconds.
fn idling(alloc: Global, nanos: u64) -> Result<Numbers, Fail> {
    let idle = Duration::from_nanos(nanos);
    Ok(CacheBuilder::new(100).time_to_idle(idle).build(alloc)?)
}

#[test]
fn asking_for_a_key_is_no_access(rt: HostRuntime) -> Result<(), Fail> {
    let rows = [
        Row(RunAt(0, INSERT), told(Done), NOBODY),
        Row(HasAt(9, 1), told(Is(true)), NOBODY),
        Row(RunAt(10, GET), told(Nothing), NOBODY),
        Row(HasAt(10, 1), told(Is(false)), NOBODY),
    ];
    play_on(&rt, idling(rt.alloc(), 10)?, &rows)
}

#[test]
fn a_look_puts_the_time_to_idle_off(rt: HostRuntime) -> Result<(), Fail> {
    let rows = [
        Row(RunAt(0, INSERT), told(Done), NOBODY),
        Row(RunAt(9, GET), told(Value(5)), NOBODY),
        Row(RunAt(18, GET), told(Value(5)), NOBODY),
        Row(RunAt(28, GET), told(Nothing), NOBODY),
        Row(RunAt(28, GET), told(Nothing), NOBODY),
    ];
    play_on(&rt, idling(rt.alloc(), 10)?, &rows)
}

#[test]
fn a_look_puts_no_time_to_live_off(rt: HostRuntime) -> Result<(), Fail> {
    let rows = [
        Row(RunAt(0, INSERT), told(Done), NOBODY),
        Row(RunAt(9, GET), told(Value(5)), NOBODY),
        Row(RunAt(10, GET), told(Nothing), NOBODY),
        Row(RunAt(10, INSERT), told(Done), NOBODY),
        Row(RunAt(19, GET), told(Value(5)), NOBODY),
        Row(RunAt(20, GET), told(Nothing), NOBODY),
    ];
    play_on(&rt, living(rt.alloc(), 10)?, &rows)
}

#[test]
fn a_waiter_is_told_what_has_expired(rt: HostRuntime) -> Result<(), Fail> {
    let one = Own(1, Load(GetWith(Gives(1, 7))));
    let other = Own(1, Load(GetWith(Gives(0, 8))));
    let rows = [
        Row(
            Both(one, other),
            Told(Value(7), 2, Never),
            Told(Value(7), 0, Never),
        ),
        Row(Run(GET), told(Nothing), NOBODY),
        Row(Run(other), Told(Value(8), 1, Never), NOBODY),
    ];
    play_on(&rt, living(rt.alloc(), 0)?, &rows)
}

#[test]
fn what_has_expired_is_loaded_anew(rt: HostRuntime) -> Result<(), Fail> {
    let load = Own(1, Load(GetWith(Gives(0, 8))));
    let tested = Own(1, Load(GetWithIf(Gives(0, 9), IfEven)));
    let rows = [
        Row(RunAt(0, INSERT), told(Done), NOBODY),
        Row(RunAt(9, load), Told(Value(5), 0, Never), NOBODY),
        Row(RunAt(19, load), Told(Value(8), 1, Never), NOBODY),
        Row(RunAt(28, GET), told(Value(8)), NOBODY),
        Row(RunAt(38, INSERT), told(Done), NOBODY),
        Row(RunAt(48, tested), Told(Value(9), 1, Tests(2)), NOBODY),
    ];
    play_on(&rt, idling(rt.alloc(), 10)?, &rows)
}

#[test]
fn a_compute_is_started_without_what_has_expired(rt: HostRuntime) -> Result<(), Fail> {
    let nop = Own(1, Compute(ComputeWith(Gives(0, Act::Nop))));
    let put = Own(1, Compute(ComputeWith(Gives(0, Act::Put(7)))));
    let count = Own(1, Compute(UpsertWith(0)));
    let rows = [
        Row(RunAt(0, INSERT), told(Done), NOBODY),
        Row(
            RunAt(10, nop),
            Told(StillNone(1), 1, Starts(1, None)),
            NOBODY,
        ),
        Row(
            RunAt(10, put),
            Told(Inserted(Fresh(1, 7)), 1, Starts(1, None)),
            NOBODY,
        ),
        Row(
            RunAt(20, count),
            Told(Entry(Fresh(1, 1)), 1, Starts(1, None)),
            NOBODY,
        ),
        Row(RunAt(29, GET), told(Value(1)), NOBODY),
    ];
    play_on(&rt, living(rt.alloc(), 10)?, &rows)
}

// It stays stored until then.
#[test]
fn what_has_expired_can_be_taken_out(rt: HostRuntime) -> Result<(), Fail> {
    let remove = Own(1, OfKey(Remove));
    let compute = Own(1, Compute(ComputeWith(Gives(0, Act::Remove))));
    let rows = [
        Row(RunAt(0, INSERT), told(Done), NOBODY),
        Row(RunAt(10, GET), told(Nothing), NOBODY),
        Row(RunAt(10, remove), told(Value(5)), NOBODY),
        Row(RunAt(10, remove), told(Nothing), NOBODY),
        Row(RunAt(10, INSERT), told(Done), NOBODY),
        Row(
            RunAt(20, compute),
            Told(Removed(Found(1, 5)), 1, Starts(1, None)),
            NOBODY,
        ),
    ];
    play_on(&rt, idling(rt.alloc(), 10)?, &rows)
}
