//! Moments, call numbers, and the count of the records that stand.

ghost use Rattle.std.specs.Prelude.{◌≡◌, ◌==◌, false, List, ◌∷◌, [], ◌++◌, map, OnOk};
ghost use Rattle.moka_hist.specs.Finite.{times};
ghost use Rattle.moka_hist.specs.Visits.{number_of};
ghost use Rattle.moka_hist.specs.declared.writes.Write.{Write as write_of};
ghost use Rattle.moka_desk_cases.specs.Rests.{IsNew, RestsOnDesk};

use crate::desks::{new_desk, rules_with};
use moka_desk::Desk;
use moka_hist::{LockTaken, Write};
use std::alloc::{AllocError, Global};
use std::process::Abort;
use std::test::Fail;

#[test]
fn call_numbers_end_with_the_greatest(rt: HostRuntime) -> Result<(), Fail> {
    let mut desk: Desk<u32, u32, u32> = Desk::starting_after(
        rt.alloc(),
        rules_with(None),
        1,
        u64::MAX - 1,
    )?;
    let (last, none) = (desk.enter(), desk.enter());
    drop(desk);
    assert!(rt; last == Some(u64::MAX));
    assert!(rt; none.is_none());
    Ok(())
}

/// Whether a record that isn't replaced is seen, and one that is isn't.
fn is_judged(desk: &mut Desk<u32, u32, u32>) -> Result<bool, AllocError> {
    let kept = desk.judge(false, false, 1, 3)?;
    let replaced = desk.judge(false, true, 1, 3)?;
    Ok(kept && !replaced)
}

fn take_moments(rt: &impl Abort, desk: &mut Desk<u32, u32, u32>) -> Result<(), Fail>
    requires { IsNew desk.old }
{
    assert!(rt; desk.stamp_moment(1)? == 0);
    assert!(rt; desk.at(7));
    assert!(rt; !desk.at(6));
    assert!(rt; is_judged(desk)?);
    Ok(())
}

#[test]
fn a_moment_is_taken(rt: HostRuntime) -> Result<(), Fail> {
    let mut desk = new_desk(rt.alloc(), rules_with(None))?;
    let taken = take_moments(&rt, &mut desk);
    drop(desk);
    taken
}

#[test]
fn a_key_is_locked(rt: HostRuntime) -> Result<(), Fail> {
    let mut desk = new_desk(rt.alloc(), rules_with(None))?;
    let locked = desk.lock_key(1, &5);
    drop(desk);
    assert!(rt; locked? == LockTaken::Taken);
    Ok(())
}

/// What is published once the write was posted by its call and applied.
pub(crate) fn published_after(
    desk: &mut Desk<u32, u32, u32>,
    write: Write,
) -> Result<u64, AllocError>
    requires { (writes : List write_of) × RestsOnDesk desk.old writes
        × (times (number_of write) (map number_of writes) ≡ 0) }
    ensures { OnOk result ((writes : List write_of) → RestsOnDesk desk.old writes
        → times (number_of write) (map number_of writes) ≡ 0
        → RestsOnDesk desk.new (writes ++ write ∷ [])) }
{
    let call = write.number();
    let _ = desk.stamp_moment(call)?;
    let _ = desk.post_write(call, write);
    let _ = desk.take_turn(call)?;
    let _ = desk.apply_one(call);
    let _ = desk.end_turn(call);
    Ok(desk.published())
}

/// Whether just so much is published after each of the writes, of calls of their own.
fn published_on(
    desk: &mut Desk<u32, u32, u32>,
    first: Write,
    second: Write,
    third: Write,
    want: [u64; 3],
) -> Result<bool, AllocError>
    requires new { IsNew desk.old }
    requires second { (number_of second == number_of first) ≡ false }
    requires third { (number_of third == number_of first) ≡ false }
    requires third_too { (number_of third == number_of second) ≡ false }
{
    let after_first = published_after(desk, first)?;
    let after_second = published_after(desk, second)?;
    let after_third = published_after(desk, third)?;
    Ok(after_first == want[0] && after_second == want[1] && after_third == want[2])
}

/// Whether, on a new desk, just so much is published after each of the writes, of calls of their
/// own.
fn is_published(
    alloc: Global,
    first: Write,
    second: Write,
    third: Write,
    want: [u64; 3],
) -> Result<bool, AllocError>
    requires second { (number_of second == number_of first) ≡ false }
    requires third { (number_of third == number_of first) ≡ false }
    requires third_too { (number_of third == number_of second) ≡ false }
{
    let mut desk = new_desk(alloc, rules_with(None))?;
    let published = published_on(&mut desk, first, second, third, want);
    drop(desk);
    published
}

#[test]
fn a_removed_record_is_counted_in_either_order(rt: HostRuntime) -> Result<(), Fail> {
    let alloc = rt.alloc();
    let made = Write::Upsert {
        number: 1,
        old: None,
    };
    let gone = Write::Remove { number: 2, old: 1 };
    let other = Write::Upsert {
        number: 3,
        old: None,
    };
    assert!(rt; is_published(alloc, made, gone, other, [1, 0, 1])?);
    assert!(rt; is_published(alloc, gone, made, other, [0, 0, 1])?);
    assert!(rt; is_published(alloc, other, made, gone, [1, 2, 1])?);
    assert!(rt; is_published(alloc, gone, other, made, [0, 1, 1])?);
    Ok(())
}
