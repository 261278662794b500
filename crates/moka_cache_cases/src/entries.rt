//! Loads of entries.

use crate::playing::play;
use moka_cache_runs::asks::Asked::Never;
use moka_cache_runs::asks::{NOBODY, Told};
use moka_cache_runs::calls::Call::{Lent, Own};
use moka_cache_runs::calls::Gives;
use moka_cache_runs::calls::Kind::{OfEntry, OfKey};
use moka_cache_runs::calls::OfEntry::{
    OrDefault, OrInsert, OrInsertWith, OrOptionallyInsertWith, OrTryInsertWith,
};
use moka_cache_runs::calls::OfKey::Get;
use moka_cache_runs::replies::Reply::{Entry, Error, Nothing, Value};
use moka_cache_runs::replies::Seen::{Found, Fresh};
use moka_cache_runs::rows::Event::{Both, Run};
use moka_cache_runs::rows::Row;
use std::test::Fail;

#[test]
fn the_entry_of_the_owner_is_fresh(rt: HostRuntime) -> Result<(), Fail> {
    let one = Own(1, OfEntry(OrInsertWith(Gives(2, 5))));
    let other = Lent(1, OfEntry(OrInsertWith(Gives(0, 6))));
    let told = (
        Told(Entry(Fresh(1, 5)), 3, Never),
        Told(Entry(Found(1, 5)), 0, Never),
    );
    let rows = [Row(Both(one, other), told.0, told.1)];
    play(&rt, 100, &rows)
}

#[test]
fn entries_tell_nothing_and_errors(rt: HostRuntime) -> Result<(), Fail> {
    let nothing = Own(1, OfEntry(OrOptionallyInsertWith(Gives(0, None))));
    let error = Lent(1, OfEntry(OrTryInsertWith(Gives(0, Err(3)))));
    let found = Own(1, OfEntry(OrOptionallyInsertWith(Gives(0, Some(5)))));
    let unasked = Lent(1, OfEntry(OrTryInsertWith(Gives(0, Ok(6)))));
    let told = (
        Told(Entry(Fresh(1, 5)), 1, Never),
        Told(Entry(Found(1, 5)), 0, Never),
    );
    let rows = [
        Row(
            Both(nothing, error),
            Told(Nothing, 1, Never),
            Told(Error(3), 1, Never),
        ),
        Row(Both(found, unasked), told.0, told.1),
    ];
    play(&rt, 100, &rows)
}

#[test]
fn a_value_is_stored_where_there_is_none(rt: HostRuntime) -> Result<(), Fail> {
    let rows = [
        Row(
            Run(Lent(1, OfEntry(OrDefault))),
            Told(Entry(Fresh(1, 0)), 0, Never),
            NOBODY,
        ),
        Row(
            Run(Own(1, OfEntry(OrInsert(6)))),
            Told(Entry(Found(1, 0)), 0, Never),
            NOBODY,
        ),
        Row(Run(Lent(1, OfKey(Get))), Told(Value(0), 0, Never), NOBODY),
    ];
    play(&rt, 100, &rows)
}

#[test]
fn a_cache_of_capacity_0_stores_no_entry(rt: HostRuntime) -> Result<(), Fail> {
    let one = Own(1, OfEntry(OrInsertWith(Gives(2, 5))));
    let other = Lent(1, OfEntry(OrInsertWith(Gives(0, 6))));
    let told = (
        Told(Entry(Fresh(1, 5)), 3, Never),
        Told(Entry(Found(1, 5)), 0, Never),
    );
    let found = Own(1, OfEntry(OrOptionallyInsertWith(Gives(0, Some(8)))));
    let gave = Lent(1, OfEntry(OrTryInsertWith(Gives(0, Ok(9)))));
    let each = (
        Told(Entry(Fresh(1, 8)), 1, Never),
        Told(Entry(Fresh(1, 9)), 1, Never),
    );
    let rows = [
        Row(Both(one, other), told.0, told.1),
        Row(
            Run(Own(1, OfEntry(OrInsert(7)))),
            Told(Entry(Fresh(1, 7)), 0, Never),
            NOBODY,
        ),
        Row(
            Run(Lent(1, OfEntry(OrDefault))),
            Told(Entry(Fresh(1, 0)), 0, Never),
            NOBODY,
        ),
        Row(Both(found, gave), each.0, each.1),
        Row(Run(Lent(1, OfKey(Get))), Told(Nothing, 0, Never), NOBODY),
    ];
    play(&rt, 0, &rows)
}

// It joins nobody.
#[test]
fn a_value_is_stored_beside_a_load(rt: HostRuntime) -> Result<(), Fail> {
    let load = Own(1, OfEntry(OrInsertWith(Gives(2, 5))));
    let store = Own(1, OfEntry(OrInsert(6)));
    let told = (
        Told(Entry(Fresh(1, 5)), 3, Never),
        Told(Entry(Fresh(1, 6)), 0, Never),
    );
    let rows = [
        Row(Both(load, store), told.0, told.1),
        Row(Run(Lent(1, OfKey(Get))), Told(Value(5), 0, Never), NOBODY),
    ];
    play(&rt, 100, &rows)
}
