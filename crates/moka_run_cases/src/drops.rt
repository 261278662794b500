//! Worked schedules in which calls are dropped. ` / ` parts lines.

use crate::in_memory::are_reported;
use std::alloc::{AllocError, Global};
use std::process::Abort;
use std::test::Fail;

/// Schedules, each with the report that it comes to.
pub(crate) const ROWS: [(&str, &str); 8] = [
    // A dropped owner leaves the load to one that waits.
    (
        "cache log=8 / start get_with 1 / start get_with 1 / poll 1 / poll 2 / drop 1 / poll 2 / tell 2 value 9 / poll 2",
        "call 1 / call 2 / ask init / wait / dropped / ask init / told / answer value 9 fresh / entry 1 9 stamp 2 at 0 / write 2 logged",
    ),
    (
        "cache log=8 / start get_with 1 / start get_with 1 / start get_with 1 / start get_with 1 / poll 1 / poll 2 / poll 3 / poll 4 / drop 1 / poll 2 / poll 3 / drop 2 / poll 3 / poll 4 / tell 3 value 9 / poll 3 / poll 4",
        "call 1 / call 2 / call 3 / call 4 / ask init / wait / wait / wait / dropped / ask init / wait / dropped / ask init / wait / told / answer value 9 fresh / answer value 9 / entry 1 9 stamp 3 at 0 / write 3 logged",
    ),
    (
        "cache log=8 / start get_with 1 / poll 1 / start get_with 1 / poll 2 / tell 1 value 7 / drop 1 / poll 2 / tell 2 value 8 / poll 2",
        "call 1 / ask init / call 2 / wait / told / dropped / ask init / told / answer value 8 fresh / entry 1 8 stamp 2 at 0 / write 2 logged",
    ),
    // A dropped waiter leaves the owner.
    (
        "cache log=8 / start get_with 1 / poll 1 / start get_with 1 / poll 2 / drop 2 / poll 2 / tell 1 value 7 / poll 1",
        "call 1 / ask init / call 2 / wait / dropped / refused UnknownCall / told / answer value 7 fresh / entry 1 7 stamp 1 at 0 / write 1 logged",
    ),
    // A dropped call that waits for a lock leaves it to its holder.
    (
        "cache log=8 listener / start insert 1 5 / poll 1 / start insert 1 6 / poll 2 / start insert 1 7 / poll 3 / drop 3 / tell 2 done / poll 2",
        "call 1 / answer done / call 2 / ask listener 1 5 Replaced / call 3 / wait / dropped / told / answer done / entry 1 6 stamp 2 at 0 / write 1 logged / write 2 logged / notice 2 1 5 Replaced ended",
    ),
    // A dropped write is owed, and drained by the next call.
    (
        "cache log=8 / start insert 1 5 / step 1 / step 1 / step 1",
        "call 1 / going / going / going / entry 1 5 stamp 1 at 0 / write 1 held",
    ),
    (
        "cache log=1 / start insert 1 5 / poll 1 / start insert 2 6 / start insert 3 7 / step 2 / step 2 / step 2 / step 2 / step 3 / step 3 / step 3 / step 3 / step 3 / step 2 / drop 2 / poll 3",
        "call 1 / answer done / call 2 / call 3 / going / going / going / going / going / going / going / going / going / wait / dropped / answer done / entry 1 5 stamp 1 at 0 / entry 2 6 stamp 2 at 0 / entry 3 7 stamp 3 at 0 / write 1 applied / write 2 owed / write 3 logged",
    ),
    (
        "cache log=1 / start insert 1 5 / poll 1 / start insert 2 6 / start insert 3 7 / step 2 / step 2 / step 2 / step 2 / step 3 / step 3 / step 3 / step 3 / step 3 / step 2 / drop 2 / poll 3 / start get 2 / poll 4",
        "call 1 / answer done / call 2 / call 3 / going / going / going / going / going / going / going / going / going / wait / dropped / answer done / call 4 / answer some 6 / entry 1 5 stamp 1 at 0 / entry 2 6 stamp 2 at 0 / entry 3 7 stamp 3 at 0 / write 1 applied / write 2 logged / write 3 applied",
    ),
];

/// Schedules in which a call is dropped at each kind of point where it may be parked. Each is followed
/// to its end: what it left is told, taken up, posted and applied, so that nothing is owed, and each
/// committed write stands in one place.
pub(crate) const PARKED: [(&str, &str); 18] = [
    // At a key's lock.
    (
        "cache log=8 listener / start insert 1 5 / poll 1 / start insert 1 6 / poll 2 / start insert 1 7 / poll 3 / drop 3 / tell 2 done / poll 2 / start pending / poll 4",
        "call 1 / answer done / call 2 / ask listener 1 5 Replaced / call 3 / wait / dropped / told / answer done / call 4 / answer done / entry 1 6 stamp 2 at 0 / write 1 applied / write 2 applied / notice 2 1 5 Replaced ended",
    ),
    // At an owner's end.
    (
        "cache log=8 / start get_with 1 / poll 1 / start get_with 1 / poll 2 / drop 2 / tell 1 value 7 / poll 1 / start pending / poll 3",
        "call 1 / ask init / call 2 / wait / dropped / told / answer value 7 fresh / call 3 / answer done / entry 1 7 stamp 1 at 0 / write 1 applied",
    ),
    // At its own ask, of a load and of a compute, and once it was told.
    (
        "cache log=8 / start get_with 1 / poll 1 / drop 1 / tell 1 value 7 / start pending / poll 2",
        "call 1 / ask init / dropped / refused NotAsked / call 2 / answer done",
    ),
    (
        "cache log=8 / start compute 1 / poll 1 / drop 1 / tell 1 put 7 / start pending / poll 2",
        "call 1 / ask compute none / dropped / refused NotAsked / call 2 / answer done",
    ),
    (
        "cache log=8 / start get_with 1 / poll 1 / tell 1 value 7 / drop 1 / start get 1 / poll 2 / start pending / poll 3",
        "call 1 / ask init / told / dropped / call 2 / answer none / call 3 / answer done",
    ),
    (
        "cache log=8 / start compute 1 / poll 1 / tell 1 put 7 / drop 1 / start get 1 / poll 2 / start pending / poll 3",
        "call 1 / ask compute none / told / dropped / call 2 / answer none / call 3 / answer done",
    ),
    // At its own notice, which runs or has ended: of a write in another's place, a load, a removal, an
    // eviction, a compute.
    (
        "cache log=8 listener / start insert 1 5 / poll 1 / start insert 1 6 / poll 2 / drop 2 / tell 2 done / start pending / poll 3",
        "call 1 / answer done / call 2 / ask listener 1 5 Replaced / dropped / told / call 3 / answer done / entry 1 6 stamp 2 at 0 / write 1 applied / write 2 applied / notice 2 1 5 Replaced ended",
    ),
    (
        "cache log=8 listener / start insert 1 5 / poll 1 / start insert 1 6 / poll 2 / tell 2 done / drop 2 / start pending / poll 3",
        "call 1 / answer done / call 2 / ask listener 1 5 Replaced / told / dropped / call 3 / answer done / entry 1 6 stamp 2 at 0 / write 1 applied / write 2 applied / notice 2 1 5 Replaced ended",
    ),
    (
        "cache log=8 ttl=9 listener / start insert 3 4 / poll 1 / at 9 / start get_with 3 / poll 2 / tell 2 value 6 / poll 2 / drop 2 / tell 2 done / start pending / poll 3",
        "call 1 / answer done / at / call 2 / ask init / told / ask listener 3 4 Expired / dropped / told / call 3 / answer done / entry 3 6 stamp 2 at 9 / write 1 applied / write 2 applied / notice 2 3 4 Expired ended",
    ),
    (
        "cache log=8 listener / start insert 1 5 / poll 1 / start remove 1 / poll 2 / drop 2 / tell 2 done / start pending / poll 3",
        "call 1 / answer done / call 2 / ask listener 1 5 Explicit / dropped / told / call 3 / answer done / write 1 applied / write 2 applied / notice 2 1 5 Explicit ended",
    ),
    (
        "cache cap=1 log=8 listener / start insert 3 4 / poll 1 / start evict 3 1 Size / poll 2 / drop 2 / tell 2 done / start pending / poll 3",
        "call 1 / answer done / call 2 / ask listener 3 4 Size / dropped / told / call 3 / answer done / write 1 applied / write 2 applied / notice 2 3 4 Size ended",
    ),
    (
        "cache log=8 listener / start insert 1 5 / poll 1 / start compute 1 / poll 2 / tell 2 put 6 / poll 2 / drop 2 / tell 2 done / start pending / poll 3",
        "call 1 / answer done / call 2 / ask compute 1 5 / told / ask listener 1 5 Replaced / dropped / told / call 3 / answer done / entry 1 6 stamp 2 at 0 / write 1 applied / write 2 applied / notice 2 1 5 Replaced ended",
    ),
    // At the notice of an owed write.
    (
        "cache log=8 listener / start insert 1 5 / poll 1 / start insert 1 6 / poll 2 / drop 2 / start get 1 / poll 3 / drop 3 / tell 2 done / start pending / poll 4",
        "call 1 / answer done / call 2 / ask listener 1 5 Replaced / dropped / call 3 / wait / dropped / told / call 4 / answer done / entry 1 6 stamp 2 at 0 / write 1 applied / write 2 applied / notice 2 1 5 Replaced ended",
    ),
    // At the maintenance turn: maintenance between two steps can't be dropped, and a call that waits can,
    // also maintenance.
    (
        "cache log=1 / start insert 1 5 / poll 1 / start pending / step 2 / step 2 / start insert 2 6 / poll 3 / start insert 3 7 / poll 4 / drop 2 / drop 3 / poll 4 / poll 2 / poll 4 / start pending / poll 5",
        "call 1 / answer done / call 2 / going / going / call 3 / wait / call 4 / wait / refused NotParked / dropped / wait / answer done / answer done / call 5 / answer done / entry 1 5 stamp 1 at 0 / entry 2 6 stamp 3 at 0 / entry 3 7 stamp 4 at 0 / write 1 applied / write 3 applied / write 4 applied",
    ),
    (
        "cache log=2 / start insert 3 4 / poll 1 / start pending / step 2 / step 2 / start pending / poll 3 / drop 3 / poll 2 / start pending / poll 4",
        "call 1 / answer done / call 2 / going / going / call 3 / wait / dropped / answer done / call 4 / answer done / entry 3 4 stamp 1 at 0 / write 1 applied",
    ),
    // At an item of a walk.
    (
        "cache log=8 / start insert 1 5 / poll 1 / start iter / poll 2 / drop 2 / poll 2 / start pending / poll 3",
        "call 1 / answer done / call 2 / item 1 5 / dropped / refused UnknownCall / call 3 / answer done / entry 1 5 stamp 1 at 0 / write 1 applied",
    ),
    // Two writes are left with their notices, and a third call takes both up.
    (
        "cache log=8 listener / start insert 1 5 / poll 1 / start insert 2 5 / poll 2 / start insert 1 6 / poll 3 / start insert 2 6 / poll 4 / drop 3 / drop 4 / start get 1 / poll 5 / drop 5 / tell 4 done / start get 2 / poll 6 / poll 6 / tell 3 done / poll 6",
        "call 1 / answer done / call 2 / answer done / call 3 / ask listener 1 5 Replaced / call 4 / ask listener 2 5 Replaced / dropped / dropped / call 5 / wait / dropped / told / call 6 / wait / wait / told / answer some 6 / entry 1 6 stamp 3 at 0 / entry 2 6 stamp 4 at 0 / write 1 logged / write 2 logged / write 3 logged / write 4 logged / notice 3 1 5 Replaced ended / notice 4 2 5 Replaced ended",
    ),
    // An owner that was told is dropped, and then the next one.
    (
        "cache log=8 / start optional 1 / start optional 1 / start optional 1 / poll 1 / poll 2 / poll 3 / tell 1 value 4 / drop 1 / poll 3 / poll 2 / drop 3 / poll 2 / tell 2 nothing / poll 2",
        "call 1 / call 2 / call 3 / ask init / wait / wait / told / dropped / ask init / wait / dropped / ask init / told / answer nothing",
    ),
];

#[test]
fn schedules_with_dropped_calls_are_reported(rt: HostRuntime) -> Result<(), Fail> {
    are_reported(&rt, &ROWS)
}

#[test]
fn a_call_may_be_dropped_wherever_it_is_parked(rt: HostRuntime) -> Result<(), Fail> {
    are_reported(&rt, &PARKED)
}

/// A schedule in which so many owners of one load are dropped, each before the call that waits for
/// it is polled, and its report. `start` is what an owner is started for, and `waiting` what call 2
/// is, which waits for each of them.
fn dropped_owners(
    alloc: Global,
    start: &str,
    waiting: &str,
    owners: u64,
) -> Result<(String, String), AllocError> {
    let mut schedule = format!(in alloc;
        "cache log=8 / start {start} / poll 1 / start {waiting} / poll 2 / drop 1"
    )?;
    let mut report = String::from_str(alloc, "call 1 / ask init / call 2 / wait / dropped")?;
    for owner in 3..owners.saturating_add(2) {
        write!(
            schedule,
            " / start {start} / poll {owner} / poll 2 / drop {owner}"
        )?;
        write!(report, " / call {owner} / ask init / wait / dropped")?;
    }
    Ok((schedule, report))
}

/// A schedule in which so many owners of a key's computes are dropped, each before the compute that
/// waits for it is polled, and its report. The last is the waiting one's.
fn dropped_computes(alloc: Global, owners: u64) -> Result<(String, String), AllocError> {
    let mut schedule = String::from_str(
        alloc,
        "cache log=8 / start compute 1 / poll 1 / start compute 1 / poll 2 / drop 1",
    )?;
    let mut report = String::from_str(
        alloc,
        "call 1 / ask compute none / call 2 / wait / dropped",
    )?;
    for owner in 3..owners.saturating_add(2) {
        write!(
            schedule,
            " / start upsert 1 / poll {owner} / poll 2 / drop {owner}"
        )?;
        write!(
            report,
            " / call {owner} / ask compute none / wait / dropped"
        )?;
    }
    schedule.push_str(" / poll 2 / tell 2 put 5 / poll 2")?;
    report.push_str(" / ask compute none / told / answer inserted 5")?;
    report.push_str(" / entry 1 5 stamp 2 at 0 / write 2 logged")?;
    Ok((schedule, report))
}

#[test]
fn a_compute_never_gives_up(rt: HostRuntime) -> Result<(), Fail> {
    let (schedule, report) = dropped_computes(rt.alloc(), 300)?;
    are_reported(&rt, &[(&schedule, &report)])
}

/// What the owners of a load are started for, and what the call is that waits for them.
const LOADS: [(&str, &str); 4] = [
    ("get_with 1", "get_with 1"),
    ("get_with 1", "get_with 1 if 2"),
    ("optional 1", "optional 1"),
    ("try 1", "try 1"),
];

/// How many owners are dropped, what happens after that, and what is reported of it.
const ENDS: [(u64, &str, &str); 2] = [
    // A load gives up at the 200th dropped owner.
    (200, " / poll 2", " / answer exhausted"),
    // One that saw 199 goes on.
    (
        199,
        " / poll 2 / tell 2 value 7 / poll 2",
        " / ask init / told / answer value 7 fresh / entry 1 7 stamp 2 at 0 / write 2 logged",
    ),
];

/// Plays the loads of each kind to the end of their owners, and compares what is reported.
fn loads_end(
    rt: &(impl AllocGlobal + Abort),
    owners: u64,
    after: &str,
    told: &str,
) -> Result<(), Fail> {
    for (start, waiting) in LOADS {
        let (mut schedule, mut report) = dropped_owners(rt.alloc(), start, waiting, owners)?;
        schedule.push_str(after)?;
        report.push_str(told)?;
        are_reported(rt, &[(&schedule, &report)])?;
    }
    Ok(())
}

#[test]
fn a_load_gives_up_at_the_200th_dropped_owner_and_not_before(rt: HostRuntime) -> Result<(), Fail> {
    for (owners, after, told) in ENDS {
        loads_end(&rt, owners, after, told)?;
    }
    Ok(())
}
