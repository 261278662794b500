//! The worked rows of the other files, run on wherever memory was wanting. `tools/fail-alloc` makes
//! each allocation of these tests fail in turn.

use crate::memory::each_comes_to;
use crate::{
    computes, drops, durations, kept_locks, listener, loads, predicates, removals, rows, walks,
};
use std::test::Fail;

#[test]
fn gets_inserts_and_loads_go_on(rt: HostRuntime) -> Result<(), Fail> {
    each_comes_to(&rt, "rows", &rows::ROWS)?;
    each_comes_to(&rt, "loads", &loads::ROWS)
}

#[test]
fn removals_and_notices_go_on(rt: HostRuntime) -> Result<(), Fail> {
    each_comes_to(&rt, "listener", &listener::ROWS)?;
    each_comes_to(&rt, "kept_locks", &kept_locks::ROWS)?;
    each_comes_to(&rt, "removals", &removals::ROWS)
}

#[test]
fn computes_and_drops_go_on(rt: HostRuntime) -> Result<(), Fail> {
    each_comes_to(&rt, "computes", &computes::ROWS)?;
    each_comes_to(&rt, "drops", &drops::ROWS)?;
    each_comes_to(&rt, "parked", &drops::PARKED)
}

#[test]
fn expiry_and_walks_go_on(rt: HostRuntime) -> Result<(), Fail> {
    each_comes_to(&rt, "expiring", &durations::EXPIRING)?;
    each_comes_to(&rt, "invalidated", &durations::INVALIDATED)?;
    each_comes_to(&rt, "walks", &walks::ROWS)
}

#[test]
fn predicates_and_maintenance_go_on(rt: HostRuntime) -> Result<(), Fail> {
    each_comes_to(&rt, "predicates", &predicates::ROWS)?;
    each_comes_to(&rt, "maintained", &predicates::MAINTAINED)
}
