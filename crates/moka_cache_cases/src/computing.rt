//! Computes on an entry.

use crate::playing::play;
use moka_cache_runs::asks::Asked::{Never, Starts};
use moka_cache_runs::asks::{NOBODY, Told};
use moka_cache_runs::calls::Call::{Lent, Own};
use moka_cache_runs::calls::Compute::{
    ComputeWith, TryComputeIfNobodyElse, TryComputeWith, UpsertWith,
};
use moka_cache_runs::calls::Gives;
use moka_cache_runs::calls::Kind::{Compute, OfKey};
use moka_cache_runs::calls::OfKey::{Get, Insert};
use moka_cache_runs::inits::Act::{Nop, Put, Remove};
use moka_cache_runs::replies::Reply::{
    Done, Dropped, Entry, Error, Inserted, Removed, ReplacedWith, StillNone, Unchanged, Value,
};
use moka_cache_runs::replies::Seen::{Found, Fresh, Replaced};
use moka_cache_runs::rows::Event::{Both, DropFirst, Run};
use moka_cache_runs::rows::Row;
use std::test::Fail;

#[test]
fn one_beside_another_compute_is_not_started(rt: HostRuntime) -> Result<(), Fail> {
    let alone = Lent(1, Compute(TryComputeIfNobodyElse(Gives(0, Remove))));
    let put = Own(1, Compute(ComputeWith(Gives(3, Put(5)))));
    let again = Own(1, Compute(ComputeWith(Gives(3, Put(7)))));
    let inserted = Told(Inserted(Fresh(1, 5)), 4, Starts(1, None));
    let replaced = Told(ReplacedWith(Replaced(1, 7)), 4, Starts(1, Some(5)));
    let rows = [
        Row(Both(put, alone), inserted, Told(StillNone(1), 0, Never)),
        Row(
            Both(again, alone),
            replaced,
            Told(Unchanged(Found(1, 5)), 0, Never),
        ),
    ];
    play(&rt, 100, &rows)
}

#[test]
fn one_that_is_alone_is_started(rt: HostRuntime) -> Result<(), Fail> {
    let put = Run(Own(1, Compute(TryComputeIfNobodyElse(Gives(1, Put(7))))));
    let store = Row(Run(Own(1, OfKey(Insert(5)))), Told(Done, 0, Never), NOBODY);
    let replaced = Told(ReplacedWith(Replaced(1, 7)), 2, Starts(1, Some(5)));
    play(&rt, 100, &[store, Row(put, replaced, NOBODY)])?;
    let inserted = Told(Inserted(Fresh(1, 7)), 2, Starts(1, None));
    play(&rt, 0, &[store, Row(put, inserted, NOBODY)])
}

#[test]
fn computes_do_what_they_are_told(rt: HostRuntime) -> Result<(), Fail> {
    let nop = Own(1, Compute(ComputeWith(Gives(1, Nop))));
    let put = Own(1, Compute(ComputeWith(Gives(1, Put(5)))));
    let another = Own(1, Compute(ComputeWith(Gives(1, Put(8)))));
    let remove = Own(1, Compute(ComputeWith(Gives(1, Remove))));
    let rows = [
        Row(Run(nop), Told(StillNone(1), 2, Starts(1, None)), NOBODY),
        Row(
            Run(put),
            Told(Inserted(Fresh(1, 5)), 2, Starts(1, None)),
            NOBODY,
        ),
        Row(
            Run(another),
            Told(ReplacedWith(Replaced(1, 8)), 2, Starts(1, Some(5))),
            NOBODY,
        ),
        Row(
            Run(nop),
            Told(Unchanged(Found(1, 8)), 2, Starts(1, Some(8))),
            NOBODY,
        ),
        Row(
            Run(remove),
            Told(Removed(Found(1, 8)), 2, Starts(1, Some(8))),
            NOBODY,
        ),
        Row(Run(remove), Told(StillNone(1), 2, Starts(1, None)), NOBODY),
    ];
    play(&rt, 100, &rows)
}

#[test]
fn what_is_stored_meanwhile_is_taken_out(rt: HostRuntime) -> Result<(), Fail> {
    let keeps = Own(1, Compute(ComputeWith(Gives(3, Nop))));
    let kept = Told(Unchanged(Found(1, 5)), 4, Starts(1, Some(5)));
    let removes = Own(1, Compute(ComputeWith(Gives(3, Remove))));
    let removed = Told(Removed(Found(1, 7)), 4, Starts(1, Some(6)));
    let rows = [
        Row(Run(Own(1, OfKey(Insert(5)))), Told(Done, 0, Never), NOBODY),
        Row(
            Both(keeps, Own(1, OfKey(Insert(6)))),
            kept,
            Told(Done, 0, Never),
        ),
        Row(
            Both(removes, Own(1, OfKey(Insert(7)))),
            removed,
            Told(Done, 0, Never),
        ),
    ];
    play(&rt, 100, &rows)
}

#[test]
fn upserts_count(rt: HostRuntime) -> Result<(), Fail> {
    let upsert = Run(Lent(1, Compute(UpsertWith(1))));
    let mut rows = Vec::new(rt.alloc());
    rows.push(Row(upsert, Told(Entry(Fresh(1, 1)), 2, Starts(1, None)), NOBODY))?;
    for times in 1..99 {
        let stored = Entry(Replaced(1, times + 1));
        rows.push(Row(upsert, Told(stored, 2, Starts(1, Some(times))), NOBODY))?;
    }
    rows.push(Row(Run(Lent(1, OfKey(Get))), Told(Value(99), 0, Never), NOBODY))?;
    play(&rt, 100, &rows)
}

#[test]
fn a_failed_compute_leaves_the_value_to_the_next(rt: HostRuntime) -> Result<(), Fail> {
    let one = Own(1, Compute(TryComputeWith(Gives(3, 4))));
    let other = Lent(1, Compute(ComputeWith(Gives(1, Nop))));
    let failed = Told(Error(4), 4, Starts(1, Some(7)));
    let rows = [
        Row(Run(Own(1, OfKey(Insert(7)))), Told(Done, 0, Never), NOBODY),
        Row(
            Both(one, other),
            failed,
            Told(Unchanged(Found(1, 7)), 2, Starts(1, Some(7))),
        ),
    ];
    play(&rt, 100, &rows)
}

#[test]
fn a_compute_begins_anew_once_its_owner_is_dropped(rt: HostRuntime) -> Result<(), Fail> {
    let one = Own(1, Compute(ComputeWith(Gives(9, Put(5)))));
    let other = Own(1, Compute(ComputeWith(Gives(1, Put(6)))));
    let dropped = Told(Dropped, 2, Starts(1, None));
    let inserted = Told(Inserted(Fresh(1, 6)), 2, Starts(1, None));
    let rows = [Row(DropFirst(2, one, other), dropped, inserted)];
    play(&rt, 100, &rows)
}

#[test]
fn a_disabled_cache_is_asked_with_nothing(rt: HostRuntime) -> Result<(), Fail> {
    let put = Row(
        Run(Own(1, Compute(ComputeWith(Gives(0, Put(5)))))),
        Told(Inserted(Fresh(1, 5)), 1, Starts(1, None)),
        NOBODY,
    );
    let upsert = Row(
        Run(Lent(1, Compute(UpsertWith(1)))),
        Told(Entry(Fresh(1, 1)), 2, Starts(1, None)),
        NOBODY,
    );
    let rows = [put, upsert, put, upsert];
    play(&rt, 0, &rows)
}
