//! The wake list, as calls are listed, handed out and come back.

ghost use Rattle.std.specs.Prelude.{nat_eq, Some, None, OnOk};
ghost use Rattle.moka_hist.specs.declared.visits.Visit.TheVariants as visit;
ghost use Rattle.moka_desk.specs.StandsFor.{Can};
ghost use Rattle.moka_desk_cases.specs.Rests.{HasTurn, IsNew, LockIsFirsts, NobodyHolds};

use crate::desks::{new_desk, rules_with};
use moka_desk::Desk;
use moka_hist::{Kind, Load, LockTaken, Takes, Told};
use std::alloc::AllocError;
use std::process::Abort;
use std::test::Fail;

/// Whether of calls 2 and 3 just those are woken that are told.
fn are_woken(desk: &Desk<u32, u32, u32>, second: bool, third: bool) -> bool {
    desk.is_woken(2) == second && desk.is_woken(3) == third
}

/// Whether of calls 1, 2 and 3, one after the other, just the first takes the turn, which nobody
/// has.
fn taken(desk: &mut Desk<u32, u32, u32>) -> Result<bool, AllocError>
    requires { HasTurn desk.old None }
    ensures { OnOk result (HasTurn desk.new (Some 1)) }
{
    let first = desk.take_turn(1)?;
    let second = desk.take_turn(2)?;
    let third = desk.take_turn(3)?;
    Ok(first && !second && !third)
}

/// Whether call 2 takes the turn, which nobody has, and only call 3 is woken then; and call 3 waits
/// again.
fn taken_again(desk: &mut Desk<u32, u32, u32>) -> Result<bool, AllocError>
    requires { HasTurn desk.old None }
{
    let second = desk.take_turn(2)?;
    let then = are_woken(desk, false, true);
    let third = desk.take_turn(3)?;
    Ok(second && then && !third && are_woken(desk, false, false))
}

fn wait_for_the_turn(rt: &impl Abort, desk: &mut Desk<u32, u32, u32>) -> Result<(), Fail>
    requires { IsNew desk.old }
{
    assert!(rt; taken(desk)?);
    assert!(rt; are_woken(desk, false, false));
    assert!(rt; desk.end_turn(1).len() == 2);
    assert!(rt; are_woken(desk, true, true));
    assert!(rt; taken_again(desk)?);
    Ok(())
}

#[test]
fn a_call_is_woken_until_it_comes_back(rt: HostRuntime) -> Result<(), Fail> {
    let mut desk = new_desk(rt.alloc(), rules_with(None))?;
    let waited = wait_for_the_turn(&rt, &mut desk);
    drop(desk);
    waited
}

/// Whether the notice of call 1 has ended, as call 2 asks, which isn't woken then.
fn has_ended(desk: &mut Desk<u32, u32, u32>) -> Result<Option<bool>, AllocError> {
    let ended = desk.notice_ended(2, 1)?;
    Ok(if desk.is_woken(2) { None } else { Some(ended) })
}

/// Whether the notice of call 1 is told its end, and call 2 is woken then.
fn is_heard(desk: &mut Desk<u32, u32, u32>) -> bool {
    let told = desk.tell(1, Told::Done).is_some();
    told && desk.is_woken(2)
}

fn wait_for_a_notice(rt: &impl Abort, desk: &mut Desk<u32, u32, u32>) -> Result<(), Fail>
    requires { IsNew desk.old }
{
    let cause = desk.open_notice(1, 5, 50, 0, 0, None, true)?;
    assert!(rt; cause.is_some());
    assert!(rt; has_ended(desk)? == Some(false));
    assert!(rt; is_heard(desk));
    assert!(rt; has_ended(desk)? == Some(true));
    Ok(())
}

#[test]
fn a_call_is_woken_for_a_notice(rt: HostRuntime) -> Result<(), Fail> {
    let mut desk = new_desk(rt.alloc(), rules_with(None))?;
    let waited = wait_for_a_notice(&rt, &mut desk);
    drop(desk);
    waited
}

/// Whether call 3 is woken with its answer, before it takes that up; and not after.
fn woken_with_its_answer(desk: &mut Desk<u32, u32, u32>) -> Option<bool>
    requires { Can nat_eq desk.old (visit.TakeTold 3) }
{
    let _ = desk.tell(3, Told::Value(9));
    let before = desk.is_woken(3);
    let _ = desk.take_told(3);
    if desk.is_woken(3) { None } else { Some(before) }
}

/// Whether call 3, which asks and doesn't wait, is woken with its answer.
fn woken_while_it_does_not_wait(desk: &mut Desk<u32, u32, u32>) -> Result<Option<bool>, AllocError>
    requires { IsNew desk.old }
{
    desk.open_ask(3, Takes::Value)?;
    Ok(woken_with_its_answer(desk))
}

/// Whether call 3, which asks and then finds no answer yet, is woken with its answer; None where it
/// finds one.
fn woken_while_it_waits(desk: &mut Desk<u32, u32, u32>) -> Result<Option<bool>, AllocError>
    requires { IsNew desk.old }
{
    desk.open_ask(3, Takes::Value)?;
    let waits = desk.take_told(3).is_none();
    let woken = woken_with_its_answer(desk);
    Ok(if waits { woken } else { None })
}

#[test]
fn only_a_call_that_waits_is_woken_with_its_answer(rt: HostRuntime) -> Result<(), Fail> {
    let mut desk = new_desk(rt.alloc(), rules_with(None))?;
    let woken = woken_while_it_does_not_wait(&mut desk);
    drop(desk);
    assert!(rt; woken? == Some(false));
    let mut desk = new_desk(rt.alloc(), rules_with(None))?;
    let woken = woken_while_it_waits(&mut desk);
    drop(desk);
    assert!(rt; woken? == Some(true));
    Ok(())
}

/// Call 2 waits for the load of call 1, and call 3 for its lock.
fn wait_for_call_1(desk: &mut Desk<u32, u32, u32>) -> Result<(), AllocError>
    requires { IsNew desk.old }
    ensures { OnOk result (NobodyHolds desk.new) }
{
    let kind = Kind::GetWith;
    let _ = desk.wait_or_own(1, Load { key: 5, kind })?;
    let _ = desk.lock_key(1, &5)?;
    let _ = desk.wait_or_own(2, Load { key: 5, kind })?;
    let _ = desk.read_settled(2)?;
    let _ = desk.lock_key(3, &5)?;
    Ok(())
}

fn leave_all(rt: &impl Abort, desk: &mut Desk<u32, u32, u32>) -> Result<(), Fail>
    requires { IsNew desk.old }
{
    wait_for_call_1(desk)?;
    assert!(rt; desk.leave(1, None).len() == 2);
    assert!(rt; are_woken(desk, true, true));
    assert!(rt; desk.leave(2, None).is_empty());
    assert!(rt; desk.leave(3, None).is_empty());
    assert!(rt; are_woken(desk, false, false));
    Ok(())
}

#[test]
fn a_call_that_leaves_wakes_others_and_is_woken_no_more(rt: HostRuntime) -> Result<(), Fail> {
    let mut desk = new_desk(rt.alloc(), rules_with(None))?;
    let left = leave_all(&rt, &mut desk);
    drop(desk);
    left
}

/// Call 1 locks the key 5, tells the listener of a record, and is dropped while that hears.
fn drop_while_told(desk: &mut Desk<u32, u32, u32>) -> Result<(), AllocError>
    requires { IsNew desk.old }
    ensures { OnOk result (LockIsFirsts desk.new) }
{
    let _ = desk.lock_key(1, &5)?;
    let _ = desk.open_notice(1, 5, 50, 0, 0, None, true)?;
    let _ = desk.leave(1, None);
    Ok(())
}

/// How call 2 finds the lock of the key 5, which is held under the number 1; whether it is woken as
/// the notice of that number ends; and how it finds the lock then.
fn found_and_woken(
    desk: &mut Desk<u32, u32, u32>,
) -> Result<(LockTaken, bool, LockTaken), AllocError>
    requires { LockIsFirsts desk.old }
{
    let kept = desk.lock_key(2, &5)?;
    let told = desk.tell(1, Told::Done).is_some();
    let woken = desk.is_woken(2);
    let taken = desk.lock_key(2, &5)?;
    Ok((kept, told && woken, taken))
}

/// How call 2 finds the lock of the key 5 once call 1 was dropped while the listener hears; whether
/// it is woken as the notice ends; and how it finds the lock then.
fn found_kept(desk: &mut Desk<u32, u32, u32>) -> Result<(LockTaken, bool, LockTaken), AllocError>
    requires { IsNew desk.old }
{
    drop_while_told(desk)?;
    found_and_woken(desk)
}

#[test]
fn a_call_is_woken_for_a_lock_that_a_notice_kept(rt: HostRuntime) -> Result<(), Fail> {
    let mut desk = new_desk(rt.alloc(), rules_with(None))?;
    let found = found_kept(&mut desk);
    drop(desk);
    let (kept, woken, taken) = found?;
    assert!(rt; kept == LockTaken::Kept { notice: 1 });
    assert!(rt; woken);
    assert!(rt; taken == LockTaken::Taken);
    Ok(())
}
