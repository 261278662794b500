//! Invalidation of all records.

use crate::playing::play;
use moka_cache_runs::asks::Asked::{Never, Starts};
use moka_cache_runs::asks::{NOBODY, Told};
use moka_cache_runs::calls::Call::{self, Lent, Own};
use moka_cache_runs::calls::Compute::ComputeWith;
use moka_cache_runs::calls::Gives;
use moka_cache_runs::calls::Kind::{Compute, Load, OfKey};
use moka_cache_runs::calls::Load::GetWith;
use moka_cache_runs::calls::OfKey::{Get, Insert, Remove};
use moka_cache_runs::inits::Act;
use moka_cache_runs::replies::Reply::{self, Counts, Done, Inserted, Is, Nothing, Value};
use moka_cache_runs::replies::Seen::Fresh;
use moka_cache_runs::rows::Event::{Count, HasAt, InvalidateAll, Run, RunAt};
use moka_cache_runs::rows::Row;
use std::test::Fail;

const INSERT: Call = Own(1, OfKey(Insert(5)));

const GET: Call = Lent(1, OfKey(Get));

/// What is told of a call that asks nobody.
const fn told(reply: Reply) -> Told {
    Told(reply, 0, Never)
}

#[test]
fn what_was_written_before_is_hidden(rt: HostRuntime) -> Result<(), Fail> {
    let rows = [
        Row(RunAt(7, INSERT), told(Done), NOBODY),
        Row(InvalidateAll(7), told(Done), NOBODY),
        Row(RunAt(7, GET), told(Value(5)), NOBODY),
        Row(InvalidateAll(8), told(Done), NOBODY),
        Row(RunAt(8, GET), told(Nothing), NOBODY),
        Row(HasAt(8, 1), told(Is(false)), NOBODY),
        Row(RunAt(8, INSERT), told(Done), NOBODY),
        Row(InvalidateAll(8), told(Done), NOBODY),
        Row(RunAt(9, GET), told(Value(5)), NOBODY),
        Row(HasAt(9, 1), told(Is(true)), NOBODY),
    ];
    play(&rt, 100, &rows)
}

#[test]
fn a_moment_before_the_clock_counts_as_the_clock(rt: HostRuntime) -> Result<(), Fail> {
    let rows = [
        Row(RunAt(5, INSERT), told(Done), NOBODY),
        Row(RunAt(6, Own(2, OfKey(Insert(6)))), told(Done), NOBODY),
        Row(InvalidateAll(3), told(Done), NOBODY),
        Row(RunAt(6, GET), told(Nothing), NOBODY),
        Row(RunAt(6, Lent(2, OfKey(Get))), told(Value(6)), NOBODY),
    ];
    play(&rt, 100, &rows)
}

#[test]
fn what_is_hidden_stays_stored(rt: HostRuntime) -> Result<(), Fail> {
    let mut rows = Vec::new(rt.alloc());
    for key in 0..385 {
        rows.push(Row(Run(Own(key, OfKey(Insert(key)))), told(Done), NOBODY))?;
    }
    rows.push(Row(InvalidateAll(1), told(Done), NOBODY))?;
    rows.push(Row(Count, told(Counts(384, 384)), NOBODY))?;
    rows.push(Row(HasAt(1, 9), told(Is(false)), NOBODY))?;
    rows.push(Row(RunAt(1, Own(9, OfKey(Remove))), told(Value(9)), NOBODY))?;
    rows.push(Row(RunAt(1, Own(9, OfKey(Remove))), told(Nothing), NOBODY))?;
    play(&rt, 1000, &rows)
}

#[test]
fn what_is_hidden_is_stored_anew(rt: HostRuntime) -> Result<(), Fail> {
    let load = Own(1, Load(GetWith(Gives(0, 8))));
    let put = Own(1, Compute(ComputeWith(Gives(0, Act::Put(7)))));
    let rows = [
        Row(Run(INSERT), told(Done), NOBODY),
        Row(InvalidateAll(1), told(Done), NOBODY),
        Row(RunAt(1, load), Told(Value(8), 1, Never), NOBODY),
        Row(RunAt(1, GET), told(Value(8)), NOBODY),
        Row(InvalidateAll(2), told(Done), NOBODY),
        Row(
            RunAt(2, put),
            Told(Inserted(Fresh(1, 7)), 1, Starts(1, None)),
            NOBODY,
        ),
        Row(RunAt(2, GET), told(Value(7)), NOBODY),
    ];
    play(&rt, 100, &rows)
}

#[test]
fn a_disabled_cache_has_nothing_to_hide(rt: HostRuntime) -> Result<(), Fail> {
    let rows = [
        Row(Run(INSERT), told(Done), NOBODY),
        Row(InvalidateAll(1), told(Done), NOBODY),
        Row(RunAt(1, GET), told(Nothing), NOBODY),
    ];
    play(&rt, 0, &rows)
}
