//! Keys that are removed, and keys that are absent.

use crate::playing::play;
use moka_cache_runs::asks::Asked::Never;
use moka_cache_runs::asks::{NOBODY, Told};
use moka_cache_runs::calls::Call::{Lent, Own};
use moka_cache_runs::calls::Kind::OfKey;
use moka_cache_runs::calls::OfKey::{Get, Insert, Invalidate, Remove};
use moka_cache_runs::replies::Reply::{Counts, Done, Is, Nothing, Value};
use moka_cache_runs::rows::Event::{Count, Has, Run};
use moka_cache_runs::rows::Row;
use std::test::Fail;

#[test]
fn what_was_inserted_is_found(rt: HostRuntime) -> Result<(), Fail> {
    let rows = [
        Row(Run(Own(1, OfKey(Insert(5)))), Told(Done, 0, Never), NOBODY),
        Row(Run(Lent(1, OfKey(Get))), Told(Value(5), 0, Never), NOBODY),
        Row(Run(Lent(2, OfKey(Get))), Told(Nothing, 0, Never), NOBODY),
    ];
    play(&rt, 100, &rows)
}

#[test]
fn a_cache_of_capacity_zero_stores_nothing(rt: HostRuntime) -> Result<(), Fail> {
    let rows = [
        Row(Run(Own(1, OfKey(Insert(5)))), Told(Done, 0, Never), NOBODY),
        Row(Run(Lent(1, OfKey(Get))), Told(Nothing, 0, Never), NOBODY),
        Row(Has(1), Told(Is(false), 0, Never), NOBODY),
        Row(Count, Told(Counts(0, 0), 0, Never), NOBODY),
    ];
    play(&rt, 0, &rows)
}

#[test]
fn absent_keys_are_told_so(rt: HostRuntime) -> Result<(), Fail> {
    let rows = [
        Row(Run(Lent(1, OfKey(Get))), Told(Nothing, 0, Never), NOBODY),
        Row(Run(Lent(1, OfKey(Remove))), Told(Nothing, 0, Never), NOBODY),
        Row(
            Run(Lent(1, OfKey(Invalidate))),
            Told(Done, 0, Never),
            NOBODY,
        ),
        Row(Has(1), Told(Is(false), 0, Never), NOBODY),
    ];
    play(&rt, 100, &rows)
}

#[test]
fn a_removed_key_gives_its_value_once(rt: HostRuntime) -> Result<(), Fail> {
    let rows = [
        Row(Run(Own(1, OfKey(Insert(5)))), Told(Done, 0, Never), NOBODY),
        Row(Has(1), Told(Is(true), 0, Never), NOBODY),
        Row(
            Run(Lent(1, OfKey(Remove))),
            Told(Value(5), 0, Never),
            NOBODY,
        ),
        Row(Run(Lent(1, OfKey(Remove))), Told(Nothing, 0, Never), NOBODY),
        Row(Has(1), Told(Is(false), 0, Never), NOBODY),
    ];
    play(&rt, 100, &rows)
}

#[test]
fn an_invalidated_key_is_absent(rt: HostRuntime) -> Result<(), Fail> {
    let rows = [
        Row(Run(Own(1, OfKey(Insert(5)))), Told(Done, 0, Never), NOBODY),
        Row(
            Run(Lent(1, OfKey(Invalidate))),
            Told(Done, 0, Never),
            NOBODY,
        ),
        Row(Run(Lent(1, OfKey(Get))), Told(Nothing, 0, Never), NOBODY),
        Row(Run(Own(1, OfKey(Insert(6)))), Told(Done, 0, Never), NOBODY),
        Row(Run(Lent(1, OfKey(Get))), Told(Value(6), 0, Never), NOBODY),
    ];
    play(&rt, 100, &rows)
}
