//! Records by time: which are visible, what a look makes of their moments, and why they leave.

use crate::desks::{new_desk, rules_with};
use moka_desk::Desk;
use moka_hist::{Cause, Rules};
use std::alloc::{AllocError, Global};
use std::process::Abort;
use std::test::Fail;
use std::time::Duration;

/// The moment at which the record of these tests was written, and its stamp.
const WRITTEN: u64 = 3;

const STAMP: u64 = 1;

/// Rules with a time to live and a time to idle of so many nanoseconds, where they are set.
fn timed(live: Option<u64>, idle: Option<u64>) -> Rules {
    Rules {
        time_to_live: live.map(Duration::from_nanos),
        time_to_idle: idle.map(Duration::from_nanos),
        ..rules_with(None)
    }
}

/// Whether a look at this moment sees the record.
fn sees_at(desk: &mut Desk<u32, u32, u32>, moment: u64) -> Result<bool, AllocError> {
    let _ = desk.at(moment);
    desk.judge(false, false, STAMP, WRITTEN)
}

/// Whether a scan at this moment finds the record visible.
fn scans_at(desk: &mut Desk<u32, u32, u32>, moment: u64) -> bool {
    let _ = desk.at(moment);
    desk.scan(false, STAMP, WRITTEN)
}

/// Whether a look finds the record, once another has looked at its moment, if that is given.
fn sees_after(
    alloc: Global,
    rules: Rules,
    first: Option<u64>,
    moment: u64,
) -> Result<bool, AllocError> {
    let mut desk = new_desk(alloc, rules)?;
    let seen = sees_both(&mut desk, first, moment);
    drop(desk);
    seen
}

fn sees_both(
    desk: &mut Desk<u32, u32, u32>,
    first: Option<u64>,
    moment: u64,
) -> Result<bool, AllocError> {
    if let Some(first) = first {
        let _ = sees_at(desk, first)?;
    }
    sees_at(desk, moment)
}

#[test]
fn a_record_is_seen_until_its_last_nanosecond(rt: HostRuntime) -> Result<(), Fail> {
    let alloc = rt.alloc();
    assert!(rt; sees_after(alloc, timed(None, None), None, u64::MAX)?);
    assert!(rt; sees_after(alloc, timed(Some(10), None), None, 12)?);
    assert!(rt; !sees_after(alloc, timed(Some(10), None), None, 13)?);
    assert!(rt; sees_after(alloc, timed(None, Some(10)), None, 12)?);
    assert!(rt; !sees_after(alloc, timed(None, Some(10)), None, 13)?);
    Ok(())
}

#[test]
fn a_time_of_nothing_is_past_at_once(rt: HostRuntime) -> Result<(), Fail> {
    let alloc = rt.alloc();
    assert!(rt; !sees_after(alloc, timed(Some(0), None), None, WRITTEN)?);
    assert!(rt; !sees_after(alloc, timed(None, Some(0)), None, WRITTEN)?);
    Ok(())
}

#[test]
fn every_time_is_past_at_the_greatest_moment(rt: HostRuntime) -> Result<(), Fail> {
    let alloc = rt.alloc();
    let long = timed(Some(u64::MAX), None);
    assert!(rt; sees_after(alloc, long, None, u64::MAX - 1)?);
    assert!(rt; !sees_after(alloc, long, None, u64::MAX)?);
    let idle = timed(None, Some(u64::MAX));
    assert!(rt; sees_after(alloc, idle, Some(9), u64::MAX - 1)?);
    assert!(rt; !sees_after(alloc, idle, Some(9), u64::MAX)?);
    Ok(())
}

#[test]
fn a_look_raises_the_moment_of_what_it_sees(rt: HostRuntime) -> Result<(), Fail> {
    let alloc = rt.alloc();
    assert!(rt; sees_after(alloc, timed(None, Some(10)), Some(9), 18)?);
    assert!(rt; !sees_after(alloc, timed(None, Some(10)), Some(9), 19)?);
    assert!(rt; !sees_after(alloc, timed(Some(10), None), Some(9), 13)?);
    Ok(())
}

#[test]
fn a_look_that_misses_raises_nothing(rt: HostRuntime) -> Result<(), Fail> {
    assert!(rt; !sees_after(rt.alloc(), timed(None, Some(10)), Some(13), 14)?);
    Ok(())
}

/// Whether the record is visible to a scan at 12, and to none at 13.
fn is_scanned(desk: &mut Desk<u32, u32, u32>) -> bool {
    let first = scans_at(desk, 12);
    let second = scans_at(desk, 13);
    first && !second
}

#[test]
fn a_scan_raises_nothing(rt: HostRuntime) -> Result<(), Fail> {
    let mut desk = new_desk(rt.alloc(), timed(None, Some(10)))?;
    let scanned = is_scanned(&mut desk);
    drop(desk);
    assert!(rt; scanned);
    Ok(())
}

/// Why the record leaves at this moment, where a write takes its place or a call removes it.
fn cause_at(alloc: Global, rules: Rules, moment: u64, upsert: bool) -> Result<Cause, AllocError> {
    let mut desk = new_desk(alloc, rules)?;
    let _ = desk.at(moment);
    let cause = desk.cause_of(STAMP, WRITTEN, None, upsert);
    drop(desk);
    Ok(cause)
}

#[test]
fn a_record_past_its_time_leaves_as_expired(rt: HostRuntime) -> Result<(), Fail> {
    let alloc = rt.alloc();
    let live = timed(Some(10), None);
    let idle = timed(None, Some(10));
    assert!(rt; cause_at(alloc, live, 12, true)? == Cause::Replaced);
    assert!(rt; cause_at(alloc, live, 13, true)? == Cause::Expired);
    assert!(rt; cause_at(alloc, idle, 12, true)? == Cause::Replaced);
    assert!(rt; cause_at(alloc, idle, 13, true)? == Cause::Expired);
    assert!(rt; cause_at(alloc, live, 12, false)? == Cause::Explicit);
    assert!(rt; cause_at(alloc, live, 13, false)? == Cause::Expired);
    assert!(rt; cause_at(alloc, idle, 13, false)? == Cause::Expired);
    Ok(())
}

/// Invalidates all at this moment.
fn invalidates_at(desk: &mut Desk<u32, u32, u32>, moment: u64) {
    let _ = desk.at(moment);
    desk.invalidate_all();
}

/// Whether a look finds the record at the moment at which all is invalidated.
fn sees_invalidated(alloc: Global, moment: u64) -> Result<bool, AllocError> {
    let mut desk = new_desk(alloc, timed(None, None))?;
    invalidates_at(&mut desk, moment);
    let seen = desk.judge(false, false, STAMP, WRITTEN);
    drop(desk);
    seen
}

#[test]
fn an_invalidation_of_all_spares_its_own_moment(rt: HostRuntime) -> Result<(), Fail> {
    let alloc = rt.alloc();
    assert!(rt; sees_invalidated(alloc, WRITTEN)?);
    assert!(rt; !sees_invalidated(alloc, WRITTEN + 1)?);
    Ok(())
}

/// Whether a record stays hidden that was seen after its write, and before all was invalidated.
fn hides_what_was_seen(desk: &mut Desk<u32, u32, u32>) -> Result<bool, AllocError> {
    let first = sees_at(desk, 8)?;
    invalidates_at(desk, 8);
    let then = desk.judge(false, false, STAMP, WRITTEN)?;
    Ok(first && !then)
}

#[test]
fn what_counts_is_the_moment_of_the_write(rt: HostRuntime) -> Result<(), Fail> {
    let mut desk = new_desk(rt.alloc(), timed(None, Some(10)))?;
    let hidden = hides_what_was_seen(&mut desk);
    drop(desk);
    assert!(rt; hidden?);
    Ok(())
}

/// Why the record leaves at the moment at which all is invalidated, where a write takes its place
/// or a call removes it; and whether it leaves that was chosen as `Explicit`.
fn causes_invalidated(
    alloc: Global,
    rules: Rules,
    moment: u64,
) -> Result<(Cause, Cause, bool), AllocError> {
    let mut desk = new_desk(alloc, rules)?;
    invalidates_at(&mut desk, moment);
    let replaced = desk.cause_of(STAMP, WRITTEN, None, true);
    let removed = desk.cause_of(STAMP, WRITTEN, None, false);
    let chosen = desk.holds(false, STAMP, WRITTEN, Cause::Explicit);
    drop(desk);
    Ok((replaced, removed, chosen))
}

#[test]
fn an_invalidation_counts_before_the_time_to_idle(rt: HostRuntime) -> Result<(), Fail> {
    let alloc = rt.alloc();
    let live = timed(Some(10), None);
    let idle = timed(None, Some(10));
    let spared = (Cause::Replaced, Cause::Explicit, false);
    let hidden = (Cause::Explicit, Cause::Explicit, true);
    let past = (Cause::Expired, Cause::Expired, true);
    let idly = (Cause::Explicit, Cause::Expired, true);
    assert!(rt; causes_invalidated(alloc, live, WRITTEN)? == spared);
    assert!(rt; causes_invalidated(alloc, live, 12)? == hidden);
    assert!(rt; causes_invalidated(alloc, live, 13)? == past);
    assert!(rt; causes_invalidated(alloc, idle, 13)? == idly);
    Ok(())
}
