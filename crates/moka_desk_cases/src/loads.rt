//! Owners, and how those that waited read that one ended.

ghost use Rattle.std.specs.Prelude.{◌≡◌, true};
ghost use Rattle.moka_hist.specs.Conditions.{may_end};
ghost use Rattle.moka_desk_cases.specs.Rests.{IsNew};

use crate::desks::{new_desk, rules_with};
use moka_desk::Desk;
use moka_hist::{Claim, Kind, Load, Settled};
use std::alloc::{AllocError, Global};
use std::test::Fail;

/// What a call reads that waited for the owner of a load of this kind, which ended so.
fn read_on(
    desk: &mut Desk<u32, u32, u32>,
    kind: Kind,
    with: Settled<u32, u32>,
) -> Result<Settled<u32, u32>, AllocError>
    requires new { IsNew desk.old }
    requires may { may_end kind with ≡ true }
{
    let _ = desk.wait_or_own(1, Load { key: 5, kind })?;
    let _ = desk.wait_or_own(2, Load { key: 5, kind })?;
    let _ = desk.settle(1, with);
    desk.read_settled(2)
}

/// Whether the same on a new desk is printed so.
fn reads(alloc: Global, kind: Kind, with: Settled<u32, u32>, want: &str) -> Result<bool, AllocError>
    requires { may_end kind with ≡ true }
{
    let mut desk = new_desk(alloc, rules_with(None))?;
    let read = read_on(&mut desk, kind, with);
    drop(desk);
    let settled = read?;
    let text = format!(in alloc; "{settled:?}");
    drop(settled);
    Ok(text?.as_str() == want)
}

#[test]
fn a_load_is_owned(rt: HostRuntime) -> Result<(), Fail> {
    let mut desk = new_desk(rt.alloc(), rules_with(None))?;
    let load = Load {
        key: 5,
        kind: Kind::GetWith,
    };
    let claim = desk.wait_or_own(1, load);
    drop(desk);
    assert!(rt; claim? == Claim::Owner);
    Ok(())
}

#[test]
fn a_call_that_waited_reads_what_its_owner_settled(rt: HostRuntime) -> Result<(), Fail> {
    let alloc = rt.alloc();
    assert!(rt; reads(alloc, Kind::Try, Settled::Ready(7), "Ready(7)")?);
    assert!(rt; reads(alloc, Kind::Try, Settled::Err(4), "Err(4)")?);
    assert!(rt; reads(alloc, Kind::Optional, Settled::Nothing, "Nothing")?);
    assert!(rt; reads(alloc, Kind::Compute, Settled::Nothing, "Nothing")?);
    assert!(rt; reads(alloc, Kind::Compute, Settled::Aborted, "Aborted")?);
    Ok(())
}

/// Whether call 1, which computes alone, finds no owner; call 2 beside it one; whether nobody waits
/// for call 1 when it ends; and whether call 2 finds no owner then.
fn owns_alone(desk: &mut Desk<u32, u32, u32>) -> Result<bool, AllocError>
    requires { IsNew desk.old }
{
    let alone = desk.owned(1, 5)?;
    let beside = desk.owned(2, 5)?;
    let nobody = desk.settle(1, Settled::Nothing).is_empty();
    let then = desk.owned(2, 5)?;
    Ok(!alone && beside && nobody && !then)
}

#[test]
fn one_that_computes_alone_owns_where_nobody_does(rt: HostRuntime) -> Result<(), Fail> {
    let mut desk = new_desk(rt.alloc(), rules_with(None))?;
    let owned = owns_alone(&mut desk);
    drop(desk);
    assert!(rt; owned?);
    Ok(())
}
