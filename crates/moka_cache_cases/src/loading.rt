//! Loads.

use crate::playing::play;
use moka_cache_runs::asks::Asked::Never;
use moka_cache_runs::asks::{NOBODY, Told};
use moka_cache_runs::calls::Call::Own;
use moka_cache_runs::calls::Gives;
use moka_cache_runs::calls::Kind::Load;
use moka_cache_runs::calls::Load::GetWith;
use moka_cache_runs::replies::Reply::{Dropped, Value};
use moka_cache_runs::rows::Event::{Both, DropFirst, LetFirst, Run};
use moka_cache_runs::rows::Row;
use std::test::Fail;

#[test]
fn one_initializer_runs_for_two_loads(rt: HostRuntime) -> Result<(), Fail> {
    let one = Own(1, Load(GetWith(Gives(3, 5))));
    let other = Own(1, Load(GetWith(Gives(0, 6))));
    let told = (Told(Value(5), 4, Never), Told(Value(5), 0, Never));
    let rows = [Row(Both(one, other), told.0, told.1)];
    play(&rt, 100, &rows)
}

#[test]
fn a_loaded_value_is_found(rt: HostRuntime) -> Result<(), Fail> {
    let rows = [
        Row(
            Run(Own(1, Load(GetWith(Gives(0, 5))))),
            Told(Value(5), 1, Never),
            NOBODY,
        ),
        Row(
            Run(Own(1, Load(GetWith(Gives(0, 6))))),
            Told(Value(5), 0, Never),
            NOBODY,
        ),
    ];
    play(&rt, 100, &rows)
}

#[test]
fn a_waiter_loads_once_the_owner_is_dropped(rt: HostRuntime) -> Result<(), Fail> {
    let one = Own(1, Load(GetWith(Gives(9, 5))));
    let other = Own(1, Load(GetWith(Gives(1, 6))));
    let told = (Told(Dropped, 2, Never), Told(Value(6), 2, Never));
    let rows = [Row(DropFirst(2, one, other), told.0, told.1)];
    play(&rt, 100, &rows)
}

#[test]
fn an_owner_goes_on_once_its_waiter_is_pending(rt: HostRuntime) -> Result<(), Fail> {
    let one = Own(1, Load(GetWith(Gives(9, 5))));
    let other = Own(1, Load(GetWith(Gives(0, 6))));
    let told = (Told(Value(5), 2, Never), Told(Value(5), 0, Never));
    let rows = [Row(LetFirst(one, other), told.0, told.1)];
    play(&rt, 100, &rows)
}
