//! Calls go on until memory is wanting, and no write that was accepted is lost. `tools/fail-alloc --behind`
//! makes each allocation of the test fail in turn.
//!
//! One allocation fails at most, so what the test takes beside the calls is tried twice.
ghost use Rattle.std.specs.Prelude.{IfOk};
ghost use Rattle.moka_behind.specs.Behind.{IsUsable};

use crate::calls::Call;
use crate::in_memory::keeper_of;
use moka_behind::{Behind, BehindError, Keeper, MapKeeper};
use std::alloc::{AllocError, Global};
use std::test::Fail;

/// What is done until memory is wanting.
const CALLS: [Call; 16] = [
    Call::Set(1, 5),
    Call::Set(2, 6),
    Call::Del(1),
    Call::Shed,
    Call::Set(3, 7),
    Call::Set(4, 8),
    Call::Del(2),
    Call::Shed,
    Call::Set(5, 9),
    Call::Set(1, 4),
    Call::Set(6, 3),
    Call::Shed,
    Call::Set(7, 2),
    Call::Set(8, 1),
    Call::Set(3, 0),
    Call::Shed,
];

fn keeper_at_last(alloc: Global) -> Result<MapKeeper, AllocError> {
    match keeper_of(alloc, &[], &[]) {
        Ok(keeper) => Ok(keeper),
        Err(_) => keeper_of(alloc, &[], &[]),
    }
}

fn behind_at_last(alloc: Global) -> Result<Behind, AllocError>
    ensures { IfOk result IsUsable }
{
    match Behind::new(alloc, 1000) {
        Ok(behind) => Ok(behind),
        Err(_) => Behind::new(alloc, 1000),
    }
}

fn shed(behind: &mut Behind) -> Result<(), AllocError>
    requires { IsUsable behind.old }
    ensures { IsUsable behind.new }
{
    behind.shed()?;
    Ok(())
}

fn make(behind: &mut Behind, call: Call) -> Result<(), AllocError>
    requires { IsUsable behind.old }
    ensures { IsUsable behind.new }
{
    match call {
        Call::Set(key, value) => behind.set(key, value),
        Call::Del(key) => behind.del(key),
        _ => shed(behind),
    }
}

/// Makes the calls in turn, until memory is wanting. Answers how many were made.
fn make_all(behind: &mut Behind) -> usize
    requires { IsUsable behind.old }
    ensures { IsUsable behind.new }
{
    for (index, call) in CALLS.iter().enumerate() {
        let made = make(behind, *call);
        if made.is_err() {
            return index;
        }
    }
    CALLS.len()
}

/// Whether each call answers that memory was wanting.
fn is_spent(behind: &mut Behind, keeper: &mut MapKeeper) -> bool
    requires { IsUsable behind.old }
    ensures { IsUsable behind.new }
{
    behind.set(9, 9).is_err()
        && behind.del(1).is_err()
        && behind.get(keeper, 1) == Err(BehindError::Memory)
        && behind.shed().is_err()
}

/// Whether each call answers that memory was wanting, if the cache is spent. True if it is not.
fn is_spent_if(behind: &mut Behind, keeper: &mut MapKeeper, spent: bool) -> bool
    requires { IsUsable behind.old }
    ensures { IsUsable behind.new }
{
    if spent {
        return is_spent(behind, keeper);
    }
    true
}

/// Drains, and once more where the keeper found no memory.
fn drain(behind: &mut Behind, keeper: &mut MapKeeper) -> Result<u64, BehindError>
    requires { IsUsable behind.old }
{
    match behind.drain(keeper) {
        Err(BehindError::Fault) => behind.drain(keeper),
        answer => answer,
    }
}

/// How many writes are among the first calls.
fn accepted(calls: usize) -> u64 {
    let mut accepted = 0u64;
    for call in CALLS.iter().take(calls) {
        if *call != Call::Shed {
            accepted = accepted.saturating_add(1);
        }
    }
    accepted
}

/// What the first calls leave under the key.
fn left(key: u32, calls: usize) -> Option<u32> {
    let mut left = None;
    for call in CALLS.iter().take(calls) {
        let call = *call;
        match call {
            Call::Set(set, value) if set == key => left = Some(value),
            Call::Del(del) if del == key => left = None,
            _ => {}
        }
    }
    left
}

/// What came of the calls: how many were made until memory was wanting, whether each call after that
/// told so, how many writes were unsent then, whether the cache drained without an error, and how
/// many were unsent after that.
#[derive(Clone, Copy)]
struct Tried {
    made: usize,
    told: bool,
    unsent: u64,
    drained: bool,
    left: u64,
}

/// Makes the calls in turn, until memory is wanting, and drains.
fn try_all(behind: &mut Behind, keeper: &mut MapKeeper) -> Tried
    requires { IsUsable behind.old }
{
    let made = make_all(behind);
    let told = is_spent_if(behind, keeper, made < CALLS.len());
    let unsent = behind.unsent();
    let drained = drain(behind, keeper).is_ok();
    Tried {
        made,
        told,
        unsent,
        drained,
        left: behind.unsent(),
    }
}

#[test]
fn no_write_is_lost_where_memory_was_wanting(rt: HostRuntime) -> Result<(), Fail> {
    let mut keeper = keeper_at_last(rt.alloc())?;
    let mut behind = behind_at_last(rt.alloc())?;
    let tried = try_all(&mut behind, &mut keeper);
    drop(behind);
    let made = tried.made;
    assert!(rt; tried.told);
    assert_eq!(rt; tried.unsent, accepted(made));
    assert_eq!(rt; tried.drained, made == CALLS.len());
    assert_eq!(rt; tried.left, 0);
    for key in 1..9 {
        let found = keeper.get(key);
        assert_eq!(rt; found, Ok(left(key, made)));
    }
    Ok(())
}
