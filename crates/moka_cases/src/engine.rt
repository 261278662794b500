//! Values from outside: the moments at which a time has just passed, and worked choices.

use crate::rows::{Wrong, all_right};
use moka_engine::{Known, choose, chosen_holds, remove_cause, upsert_cause, visible};
use moka_hist::{Cause, Rules, Times, later};
use std::alloc::{AllocError, Global};
use std::test::Fail;
use std::time::Duration;

/// Rules with these times in nanoseconds, and this capacity.
fn rules_of(live: Option<u64>, idle: Option<u64>, max_capacity: Option<u64>) -> Rules {
    Rules {
        max_capacity,
        time_to_live: live.map(Duration::from_nanos),
        time_to_idle: idle.map(Duration::from_nanos),
        listener: false,
        closures: false,
    }
}

/// The times of a record at a clock of 100, where records are valid after the moment.
fn times_of(valid_after: Option<u64>, modified: u64, accessed: u64) -> Times {
    Times {
        clock: 100,
        valid_after,
        modified,
        accessed,
    }
}

/// The first row whose moment, so long after another, is another than it says.
fn mistimed() -> Wrong {
    let most = u64::MAX;
    let rows = [
        (0, Duration::ZERO, 0),
        (5, Duration::from_nanos(10), 15),
        (most - 1, Duration::from_nanos(1), most),
        (most, Duration::from_nanos(1), most),
        (0, Duration::MAX, most),
    ];
    for row in 0..rows.len() {
        let (moment, duration, want) = rows[row];
        if later(moment, duration) != want {
            return Ok(Some(row as u64));
        }
    }
    Ok(None)
}

#[test]
fn a_moment_stops_at_the_greatest(rt: HostRuntime) {
    all_right(&rt, mistimed());
}

/// The times to live and to idle, after which moment records are valid, when the record was modified
/// and accessed, and whether it is seen where no test hits it.
const SEEN: [(Option<u64>, Option<u64>, Option<u64>, u64, u64, bool); 10] = [
    (None, None, None, 0, 0, true),
    (Some(100), None, None, 0, 0, false),
    (Some(101), None, None, 0, 0, true),
    (None, Some(60), None, 0, 40, false),
    (None, Some(61), None, 0, 40, true),
    (Some(0), None, None, 100, 100, false),
    (Some(u64::MAX), Some(u64::MAX), None, 1, 1, true),
    (None, None, Some(50), 50, 50, true),
    (None, None, Some(50), 49, 50, false),
    (None, None, Some(50), 50, 49, false),
];

/// The first of these rows that is seen otherwise, or where a test hits it.
fn misseen() -> Wrong {
    for row in 0..SEEN.len() {
        let (live, idle, valid_after, modified, accessed, want) = SEEN[row];
        let rules = rules_of(live, idle, None);
        let times = times_of(valid_after, modified, accessed);
        if visible(&rules, &times, false) != want || visible(&rules, &times, true) {
            return Ok(Some(row as u64));
        }
    }
    Ok(None)
}

#[test]
fn a_record_is_seen_until_the_last_nanosecond(rt: HostRuntime) {
    all_right(&rt, misseen());
}

/// The times to live and to idle, after which moment records are valid, and the cause that is told
/// of an upsert and of a removal.
const CAUSES: [(Option<u64>, Option<u64>, Option<u64>, Cause, Cause); 6] = [
    (None, None, None, Cause::Replaced, Cause::Explicit),
    (None, Some(90), None, Cause::Expired, Cause::Expired),
    (Some(90), None, Some(11), Cause::Expired, Cause::Expired),
    (Some(91), None, Some(11), Cause::Explicit, Cause::Explicit),
    (Some(91), None, Some(10), Cause::Replaced, Cause::Explicit),
    (
        Some(91),
        Some(90),
        Some(11),
        Cause::Explicit,
        Cause::Expired,
    ),
];

/// The first of these rows of which another cause is told.
fn mistold() -> Wrong {
    for row in 0..CAUSES.len() {
        let (live, idle, valid_after, upsert, remove) = CAUSES[row];
        let rules = rules_of(live, idle, None);
        let times = times_of(valid_after, 10, 10);
        if upsert_cause(&rules, &times) != upsert || remove_cause(&rules, &times) != remove {
            return Ok(Some(row as u64));
        }
    }
    Ok(None)
}

#[test]
fn causes_are_told_in_their_order(rt: HostRuntime) {
    all_right(&rt, mistold());
}

/// Whether a chosen record leaves, where that is so, for its size, by a removal, since it expired,
/// and as replaced.
fn leaves(rules: &Rules, times: &Times, hit: bool, want: [bool; 4]) -> bool {
    chosen_holds(rules, times, hit, Cause::Size) == want[0]
        && chosen_holds(rules, times, hit, Cause::Explicit) == want[1]
        && chosen_holds(rules, times, hit, Cause::Expired) == want[2]
        && chosen_holds(rules, times, hit, Cause::Replaced) == want[3]
}

#[test]
fn a_chosen_record_leaves_only_for_what_still_holds(rt: HostRuntime) {
    let (rules, times) = (rules_of(None, None, None), times_of(None, 10, 10));
    assert!(rt; leaves(&rules, &times, false, [false, false, false, false]));
    assert!(rt; leaves(&rules, &times, true, [false, true, false, false]));
    let rules = rules_of(None, Some(90), Some(1));
    let times = times_of(Some(11), 10, 10);
    assert!(rt; leaves(&rules, &times, false, [true, true, true, false]));
}

/// A record of this key and stamp that was seen last at the moment; a test hits it or not.
fn known(key: u8, stamp: u64, accessed: u64, hit: bool) -> Known<u8> {
    Known {
        key,
        stamp,
        times: times_of(None, 0, accessed),
        hit,
    }
}

/// Whether of five records these are to leave where this is the capacity, as they are told.
fn are_chosen(alloc: Global, max_capacity: u64, want: &str) -> Result<bool, AllocError> {
    let records = [
        known(1, 7, 3, false),
        known(2, 4, 0, true),
        known(3, 5, 3, false),
        known(4, 5, 3, false),
        known(5, 1, 9, false),
    ];
    let names = choose(alloc, &rules_of(None, None, Some(max_capacity)), &records)?;
    let text = format!(in alloc; "{names:?}")?;
    Ok(text.as_str() == want)
}

#[test]
fn the_surplus_is_what_was_seen_longest_ago(rt: HostRuntime) -> Result<(), Fail> {
    let two = "Listing { items: [Named { key: 2, stamp: 4, cause: Explicit }, \
        Named { key: 3, stamp: 5, cause: Size }, Named { key: 4, stamp: 5, cause: Size }] }";
    assert!(rt; are_chosen(rt.alloc(), 2, two)?);
    let four = "Listing { items: [Named { key: 2, stamp: 4, cause: Explicit }] }";
    assert!(rt; are_chosen(rt.alloc(), 4, four)?);
    Ok(())
}
