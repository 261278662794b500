//! Loads that are made anew where a test holds on the value that is there.

use crate::playing::play;
use moka_cache_runs::asks::Asked::{Never, Tests};
use moka_cache_runs::asks::{NOBODY, Told};
use moka_cache_runs::calls::Call::{Lent, Own};
use moka_cache_runs::calls::Gives;
use moka_cache_runs::calls::Kind::{Load, OfEntry, OfKey};
use moka_cache_runs::calls::Load::{GetWith, GetWithIf};
use moka_cache_runs::calls::OfEntry::OrInsertWithIf;
use moka_cache_runs::calls::OfKey::{Get, Insert};
use moka_cache_runs::calls::Test::{Always, IfEven};
use moka_cache_runs::replies::Reply::{Done, Entry, Value};
use moka_cache_runs::replies::Seen::{Found, Fresh};
use moka_cache_runs::rows::Event::{Both, Run};
use moka_cache_runs::rows::Row;
use std::test::Fail;

#[test]
fn a_value_on_which_the_test_holds_is_loaded_anew(rt: HostRuntime) -> Result<(), Fail> {
    let load = Own(1, Load(GetWithIf(Gives(1, 5), IfEven)));
    let again = Own(1, Load(GetWithIf(Gives(1, 6), IfEven)));
    let rows = [
        Row(Run(Own(1, OfKey(Insert(4)))), Told(Done, 0, Never), NOBODY),
        Row(Run(load), Told(Value(5), 2, Tests(2)), NOBODY),
        Row(Run(again), Told(Value(5), 0, Tests(1)), NOBODY),
        Row(Run(Lent(1, OfKey(Get))), Told(Value(5), 0, Never), NOBODY),
    ];
    play(&rt, 100, &rows)
}

#[test]
fn an_entry_that_was_loaded_anew_is_fresh(rt: HostRuntime) -> Result<(), Fail> {
    let load = Lent(1, OfEntry(OrInsertWithIf(Gives(1, 7), IfEven)));
    let rows = [
        Row(Run(Own(1, OfKey(Insert(4)))), Told(Done, 0, Never), NOBODY),
        Row(Run(load), Told(Entry(Fresh(1, 7)), 2, Tests(2)), NOBODY),
        Row(Run(load), Told(Entry(Found(1, 7)), 0, Tests(1)), NOBODY),
    ];
    play(&rt, 100, &rows)
}

// Its test would hold on 5.
#[test]
fn the_test_of_a_waiter_is_not_asked(rt: HostRuntime) -> Result<(), Fail> {
    let one = Own(1, Load(GetWith(Gives(2, 5))));
    let other = Own(1, Load(GetWithIf(Gives(0, 6), Always)));
    let told = (Told(Value(5), 3, Never), Told(Value(5), 0, Never));
    let rows = [Row(Both(one, other), told.0, told.1)];
    play(&rt, 100, &rows)
}

// The owner asks it of two looks, and the waiter of its first.
#[test]
fn a_load_asks_its_test_of_its_own_looks_alone(rt: HostRuntime) -> Result<(), Fail> {
    let one = Own(1, Load(GetWithIf(Gives(2, 5), Always)));
    let other = Own(1, Load(GetWithIf(Gives(0, 6), Always)));
    let told = (Told(Value(5), 3, Tests(2)), Told(Value(5), 0, Tests(1)));
    let rows = [
        Row(Run(Own(1, OfKey(Insert(4)))), Told(Done, 0, Never), NOBODY),
        Row(Both(one, other), told.0, told.1),
    ];
    play(&rt, 100, &rows)
}

#[test]
fn a_cache_of_capacity_0_asks_no_test(rt: HostRuntime) -> Result<(), Fail> {
    let one = Own(1, Load(GetWith(Gives(2, 4))));
    let other = Own(1, Load(GetWithIf(Gives(0, 6), Always)));
    let told = (Told(Value(4), 3, Never), Told(Value(4), 0, Never));
    let rows = [
        Row(Both(one, other), told.0, told.1),
        Row(
            Run(Own(1, Load(GetWithIf(Gives(0, 4), IfEven)))),
            Told(Value(4), 1, Never),
            NOBODY,
        ),
        Row(
            Run(Own(1, Load(GetWithIf(Gives(0, 6), IfEven)))),
            Told(Value(6), 1, Never),
            NOBODY,
        ),
    ];
    play(&rt, 0, &rows)
}
