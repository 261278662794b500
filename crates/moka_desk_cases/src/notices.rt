//! Notices, those that wait for one, and records that were chosen to leave.

ghost use Rattle.std.specs.Prelude.{◌≡◌, false};
ghost use Rattle.moka_desk.specs.History.{keeps_heard};
ghost use Rattle.moka_desk_cases.specs.Rests.{IsNew};

use crate::desks::{new_desk, rules_with};
use moka_desk::Desk;
use moka_hist::{Cause, Rules, Told};
use moka_room::FixedSeed;
use std::alloc::{AllocError, Global};
use std::process::Abort;
use std::test::Fail;
use std::time::Duration;

/// Whether the notice of call 1 has not ended, as each of the calls asks in turn.
fn is_running(desk: &mut Desk<u32, u32, u32>, calls: [u64; 3]) -> Result<bool, AllocError> {
    let first = desk.notice_ended(calls[0], 1)?;
    let second = desk.notice_ended(calls[1], 1)?;
    let third = desk.notice_ended(calls[2], 1)?;
    Ok(!first && !second && !third)
}

/// How many are handed out, and the first of them, where call 1 takes the answer.
fn handed_out(
    desk: &mut Desk<u32, u32, u32>,
    answer: Told<u32, u32>,
) -> Option<(usize, Option<u64>)> {
    let woken = desk.tell(1, answer)?;
    Some((woken.len(), woken.get(0)))
}

/// Whether the notice takes no value, hands out two that wait where it is off, of which call 4 is
/// first, and takes nothing more.
fn hands_out_both(desk: &mut Desk<u32, u32, u32>) -> bool {
    let value = handed_out(desk, Told::Value(9));
    let off = handed_out(desk, Told::Off);
    let done = handed_out(desk, Told::Done);
    value.is_none() && off == Some((2, Some(4))) && done.is_none()
}

fn are_handed_out(rt: &impl Abort, desk: &mut Desk<u32, u32, u32>) -> Result<(), Fail>
    requires { IsNew desk.old }
{
    let cause = desk.open_notice(1, 5, 50, 0, 0, None, true)?;
    assert!(rt; cause == Some(Cause::Replaced));
    assert!(rt; is_running(desk, [4, 2, 4])?);
    assert!(rt; hands_out_both(desk));
    assert!(rt; desk.notice_ended(4, 1)?);
    Ok(())
}

#[test]
fn those_that_wait_for_a_notice_are_handed_out(rt: HostRuntime) -> Result<(), Fail> {
    let mut desk = new_desk(rt.alloc(), rules_with(None))?;
    let handed_out = are_handed_out(&rt, &mut desk);
    drop(desk);
    handed_out
}

/// Whether the notice of call 1, which neither key nor value is handed to, tells that its record was
/// replaced, is waited for by call 2, and hands that out as it ends.
fn is_heard_without_pair(desk: &mut Desk<u32, u32, u32>) -> Result<bool, AllocError>
    requires { keeps_heard desk.old ≡ false }
{
    let cause = desk.open_unheard(1, 0, 0, None, true)?;
    let runs = !desk.notice_ended(2, 1)?;
    let woken = handed_out(desk, Told::Done);
    let has_ended = desk.notice_ended(2, 1)?;
    Ok(cause == Some(Cause::Replaced) && runs && woken == Some((1, Some(2))) && has_ended)
}

#[test]
fn a_desk_without_a_history_opens_a_notice_without_its_pair(rt: HostRuntime) -> Result<(), Fail> {
    let mut desk = Desk::without_history(rt.alloc(), rules_with(None), 4, 0, FixedSeed::new())?;
    let keeps = desk.keeps_heard();
    let heard = is_heard_without_pair(&mut desk);
    drop(desk);
    assert!(rt; !keeps);
    assert!(rt; heard?);
    Ok(())
}

/// The cause that the notice of a removal tells, to which this one was handed, on a new desk.
fn told_cause(alloc: Global, handed: Option<Cause>) -> Result<Option<Cause>, AllocError> {
    let mut desk = new_desk(alloc, rules_with(None))?;
    let cause = desk.open_notice(1, 5, 50, 0, 0, handed, false);
    drop(desk);
    cause
}

#[test]
fn a_notice_tells_the_cause_of_a_removal(rt: HostRuntime) -> Result<(), Fail> {
    let alloc = rt.alloc();
    assert!(rt; told_cause(alloc, None)? == Some(Cause::Explicit));
    assert!(rt; told_cause(alloc, Some(Cause::Size))? == Some(Cause::Size));
    assert!(rt; told_cause(alloc, Some(Cause::Expired))? == Some(Cause::Expired));
    Ok(())
}

/// Whether a record that was chosen for this cause leaves, where this is the capacity.
fn leaves(alloc: Global, capacity: Option<u64>, cause: Cause) -> Result<bool, AllocError> {
    let desk = new_desk(alloc, rules_with(capacity))?;
    let holds = desk.holds(false, 1, 0, cause);
    drop(desk);
    Ok(holds)
}

#[test]
fn a_chosen_record_leaves_for_its_size_where_a_capacity_is_set(
    rt: HostRuntime,
) -> Result<(), Fail> {
    let alloc = rt.alloc();
    assert!(rt; !leaves(alloc, None, Cause::Size)?);
    assert!(rt; leaves(alloc, Some(3), Cause::Size)?);
    assert!(rt; !leaves(alloc, Some(3), Cause::Explicit)?);
    assert!(rt; !leaves(alloc, Some(3), Cause::Expired)?);
    assert!(rt; !leaves(alloc, Some(3), Cause::Replaced)?);
    Ok(())
}

/// Whether a record of the moment 3, which lives for ten nanoseconds, leaves at 13 and not at 12.
fn leaves_in_time(desk: &mut Desk<u32, u32, u32>) -> bool {
    let first = desk.at(12);
    let early = desk.holds(false, 1, 3, Cause::Expired);
    let then = desk.at(13);
    let late = desk.holds(false, 1, 3, Cause::Expired);
    first && !early && then && late
}

#[test]
fn a_chosen_record_leaves_once_its_time_is_past(rt: HostRuntime) -> Result<(), Fail> {
    let rules = Rules {
        time_to_live: Some(Duration::from_nanos(10)),
        ..rules_with(None)
    };
    let mut desk = new_desk(rt.alloc(), rules)?;
    let left = leaves_in_time(&mut desk);
    drop(desk);
    assert!(rt; left);
    Ok(())
}
