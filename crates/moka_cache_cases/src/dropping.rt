//! Calls that are dropped.

use crate::playing::play;
use moka_cache_runs::asks::Asked::Never;
use moka_cache_runs::asks::{NOBODY, Told};
use moka_cache_runs::calls::Call::{Lent, Own};
use moka_cache_runs::calls::Kind::OfKey;
use moka_cache_runs::calls::OfKey::{Get, Insert};
use moka_cache_runs::replies::Reply::{Done, Nothing, Value};
use moka_cache_runs::rows::Event::{Cancelled, Once, Run, Unpolled};
use moka_cache_runs::rows::Row;
use std::test::Fail;

#[test]
fn a_dropped_call_is_cancelled(rt: HostRuntime) -> Result<(), Fail> {
    let rows = [
        Row(Unpolled(Own(1, OfKey(Insert(5)))), NOBODY, NOBODY),
        Row(Run(Lent(1, OfKey(Get))), Told(Nothing, 0, Never), NOBODY),
        Row(Once(Own(1, OfKey(Insert(6)))), Told(Done, 0, Never), NOBODY),
        Row(Run(Lent(1, OfKey(Get))), Told(Value(6), 0, Never), NOBODY),
        Row(Cancelled(Own(1, OfKey(Insert(7)))), NOBODY, NOBODY),
        Row(Run(Lent(1, OfKey(Get))), Told(Value(6), 0, Never), NOBODY),
        Row(Run(Own(1, OfKey(Insert(8)))), Told(Done, 0, Never), NOBODY),
        Row(Run(Lent(1, OfKey(Get))), Told(Value(8), 0, Never), NOBODY),
    ];
    play(&rt, 100, &rows)
}
