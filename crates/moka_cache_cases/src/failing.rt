//! Loads that fail, or find nothing.

use crate::playing::play;
use moka_cache_runs::asks::Asked::Never;
use moka_cache_runs::asks::{NOBODY, Told};
use moka_cache_runs::calls::Call::{Lent, Own};
use moka_cache_runs::calls::Gives;
use moka_cache_runs::calls::Kind::{Load, OfKey};
use moka_cache_runs::calls::Load::{GetWith, OptionallyGetWith, TryGetWith};
use moka_cache_runs::calls::OfKey::{Get, Remove};
use moka_cache_runs::replies::Reply::{Dropped, Error, Nothing, Value};
use moka_cache_runs::rows::Event::{Both, DropFirst, Run};
use moka_cache_runs::rows::Row;
use std::test::Fail;

#[test]
fn an_error_goes_to_all_that_wait_and_is_not_stored(rt: HostRuntime) -> Result<(), Fail> {
    let one = Own(1, Load(TryGetWith(Gives(2, Err(3)))));
    let other = Lent(1, Load(TryGetWith(Gives(0, Ok(6)))));
    let anew = Own(1, Load(TryGetWith(Gives(0, Ok(7)))));
    let rows = [
        Row(
            Both(one, other),
            Told(Error(3), 3, Never),
            Told(Error(3), 0, Never),
        ),
        Row(Run(anew), Told(Value(7), 1, Never), NOBODY),
    ];
    play(&rt, 100, &rows)
}

#[test]
fn a_waiter_tries_once_the_owner_is_dropped(rt: HostRuntime) -> Result<(), Fail> {
    let one = Own(1, Load(TryGetWith(Gives(9, Ok(5)))));
    let other = Own(1, Load(TryGetWith(Gives(1, Err(4)))));
    let told = (Told(Dropped, 2, Never), Told(Error(4), 2, Never));
    let rows = [Row(DropFirst(2, one, other), told.0, told.1)];
    play(&rt, 100, &rows)
}

#[test]
fn nothing_goes_to_all_that_wait_and_is_not_stored(rt: HostRuntime) -> Result<(), Fail> {
    let one = Own(1, Load(OptionallyGetWith(Gives(2, None))));
    let other = Lent(1, Load(OptionallyGetWith(Gives(0, Some(6)))));
    let rows = [
        Row(
            Both(one, other),
            Told(Nothing, 3, Never),
            Told(Nothing, 0, Never),
        ),
        Row(Run(Lent(1, OfKey(Get))), Told(Nothing, 0, Never), NOBODY),
    ];
    play(&rt, 100, &rows)
}

#[test]
fn loads_of_two_kinds_run_two_initializers(rt: HostRuntime) -> Result<(), Fail> {
    let nothing = Own(1, Load(OptionallyGetWith(Gives(2, None))));
    let value = Lent(1, Load(GetWith(Gives(4, 6))));
    let another = Own(1, Load(GetWith(Gives(2, 7))));
    let error = Own(1, Load(TryGetWith(Gives(0, Err(8)))));
    let rows = [
        Row(
            Both(nothing, value),
            Told(Nothing, 3, Never),
            Told(Value(6), 5, Never),
        ),
        Row(
            Run(Lent(1, OfKey(Remove))),
            Told(Value(6), 0, Never),
            NOBODY,
        ),
        Row(
            Both(another, error),
            Told(Value(7), 3, Never),
            Told(Error(8), 1, Never),
        ),
    ];
    play(&rt, 100, &rows)
}

#[test]
fn a_cache_of_capacity_0_asks_each_time(rt: HostRuntime) -> Result<(), Fail> {
    let found = (
        Load(OptionallyGetWith(Gives(1, Some(5)))),
        Load(OptionallyGetWith(Gives(1, Some(6)))),
    );
    let failed = (
        Load(TryGetWith(Gives(0, Err(5)))),
        Load(TryGetWith(Gives(0, Err(6)))),
    );
    let rows = [
        Row(Run(Own(1, found.0)), Told(Value(5), 2, Never), NOBODY),
        Row(Run(Own(1, failed.0)), Told(Error(5), 1, Never), NOBODY),
        Row(Run(Lent(1, OfKey(Get))), Told(Nothing, 0, Never), NOBODY),
        Row(Run(Own(1, found.1)), Told(Value(6), 2, Never), NOBODY),
        Row(Run(Own(1, failed.1)), Told(Error(6), 1, Never), NOBODY),
        Row(Run(Lent(1, OfKey(Get))), Told(Nothing, 0, Never), NOBODY),
    ];
    play(&rt, 0, &rows)
}
