//! Calls that wait for owners which are dropped, one after the other.
ghost use Rattle.std.specs.Prelude.{IsSome, IfSome};
ghost use Rattle.futures.specs.Poll.{OnPending};
ghost use Rattle.futures.specs.Task.{IsArmed, Keeps};

use futures::Future;
use futures::executor::block_on;
use futures::task::{Context, Poll};
use moka_cache::{ByCompute, ByInit, Cache, PollError, RetriesExhausted, State, ToCompute, ToLoad};
use moka_cache_runs::asks::Asks;
use moka_cache_runs::caches::Numbers;
use moka_cache_runs::inits::{Act, After, Tells};
use moka_cache_runs::numbers::{NumberCall, numbers};
use moka_hist::{CompResult, Entry};
use std::alloc::AllocGlobal;
use std::io;
use std::random::RandomSource;
use std::sync::Wait;
use std::test::Fail;

// Makes the owners of a key.
trait Owns<R: Wait, S: State<R>> {
    // Makes another.
    fn owner(&self) -> S
        ensures { S.can_poll result };
}

// Polls a call beside so many owners, one after the other. Each is polled once before the call, and
// dropped after that.
struct Outlasts<'a, R: Wait, S: State<R>, O> {
    rt: &'a R,
    owners: u64,
    owns: O,
    waiter: Option<S>,
}

impl<R: Wait, S: State<R>, O: Drop> Drop for Outlasts<'_, R, S, O> {
    fn drop(self) {
        let Self {
            rt,
            owners: _,
            owns: _,
            waiter,
        } = self;
        if let Some(waiter) = waiter {
            waiter.cancel(rt);
        }
    }
}

impl<R: Wait, S: State<R, Output: Drop>, O: Owns<R, S> + Drop> Future for Outlasts<'_, R, S, O> {
    type Output = Result<S::Output, PollError>;

    ghost can_poll = { λ t. IsSome t.waiter × IfSome t.waiter S.can_poll };

    fn poll(&mut self, cx: &mut Context<'_>) -> Poll<Result<S::Output, PollError>> {
        let owner = next_owner(&self.owns, self.owners);
        self.owners = self.owners.saturating_sub(1);
        match &mut self.waiter {
            Some(waiter) => poll_beside(owner, waiter, self.rt, cx),
            None => unreachable!(),
        }
    }
}

// The next owner, where so many are to come.
fn next_owner<R: Wait, S: State<R>, O: Owns<R, S>>(owns: &O, owners: u64) -> Option<S>
    ensures { IfSome result S.can_poll }
{
    match owners {
        0 => None,
        _ => Some(owns.owner()),
    }
}

// Polls the owner, if there is one, and then the call, and drops the owner.
fn poll_beside<R: Wait, S: State<R, Output: Drop>>(
    owner: Option<S>,
    waiter: &mut S,
    rt: &R,
    cx: &mut Context<'_>,
) -> Poll<Result<S::Output, PollError>>
    requires owner { IfSome owner S.can_poll }
    requires waiter { S.can_poll waiter.old }
    ensures pending { OnPending result (S.can_poll waiter.new) }
    ensures armed { OnPending result (IsArmed cx.new) }
    ensures kept { Keeps cx.old cx.new }
{
    match owner {
        Some(owner) => poll_after(owner, waiter, rt, cx),
        None => waiter.poll(rt, cx, 0),
    }
}

// Polls the owner and then the call, and drops the owner.
fn poll_after<R: Wait, S: State<R, Output: Drop>>(
    owner: S,
    waiter: &mut S,
    rt: &R,
    cx: &mut Context<'_>,
) -> Poll<Result<S::Output, PollError>>
    requires owner { S.can_poll owner }
    requires waiter { S.can_poll waiter.old }
    ensures pending { OnPending result (S.can_poll waiter.new) }
    ensures armed { OnPending result (IsArmed cx.new) }
    ensures kept { Keeps cx.old cx.new }
{
    let mut owner = owner;
    drop(owner.poll(rt, cx, 0));
    let polled = waiter.poll(rt, cx, 0);
    owner.cancel(rt);
    polled
}

// Runs a call to its end beside so many owners.
fn outlast<R, S, O>(
    rt: &R,
    owners: u64,
    owns: O,
    waiter: S,
) -> io::Result<Result<S::Output, PollError>>
where
    R: Wait + RandomSource + AllocGlobal,
    S: State<R, Output: Drop>,
    O: Owns<R, S> + Drop,
    requires { S.can_poll waiter }
{
    let waiter = Some(waiter);
    block_on(
        rt,
        Outlasts {
            rt,
            owners,
            owns,
            waiter,
        },
    )
}

// A load, and a compute.
type Load<'a> = NumberCall<'a, ToLoad<'a, u32>, ByInit<After<'a>>>;

type Computing<'a> = NumberCall<'a, ToCompute<'a, u32>, ByCompute<Tells<'a>>>;

// Loads of key 1 that never end.
#[derive(Drop)]
struct Loads<'a> {
    cache: &'a Numbers,
    asks: &'a Asks,
}

impl<'a, R: Wait> Owns<R, Load<'a>> for Loads<'a> {
    fn owner(&self) -> Load<'a> {
        let init = After::polls(u64::MAX, 0, self.asks);
        numbers(self.cache.get_with(1, init))
    }
}

// Loads key 1 beside so many loads of it that are dropped.
fn load_after<'a, R: Wait + RandomSource + AllocGlobal>(
    rt: &'a R,
    cache: &'a Numbers,
    owners: u64,
    dropped: &'a Asks,
    asks: &'a Asks,
) -> io::Result<Result<Result<u32, RetriesExhausted>, PollError>> {
    let owns = Loads {
        cache,
        asks: dropped,
    };
    let waiter = numbers(cache.get_with(1, After::polls(1, 5, asks)));
    outlast(rt, owners, owns, waiter)
}

// Computes on key 1 that never end.
#[derive(Drop)]
struct Computes<'a> {
    cache: &'a Numbers,
    asks: &'a Asks,
}

impl<'a, R: Wait> Owns<R, Computing<'a>> for Computes<'a> {
    fn owner(&self) -> Computing<'a> {
        let compute = Tells::after(u64::MAX, Act::Put(0), self.asks);
        numbers(self.cache.entry(1).and_compute_with(compute))
    }
}

// Computes on key 1 beside so many computes of it that are dropped.
fn compute_after<'a, R: Wait + RandomSource + AllocGlobal>(
    rt: &'a R,
    cache: &'a Numbers,
    owners: u64,
    dropped: &'a Asks,
    asks: &'a Asks,
) -> io::Result<Result<CompResult<u32, u32>, PollError>> {
    let owns = Computes {
        cache,
        asks: dropped,
    };
    let compute = Tells::after(1, Act::Put(5), asks);
    let waiter = numbers(cache.entry(1).and_compute_with(compute));
    outlast(rt, owners, owns, waiter)
}

#[test]
fn a_waiting_load_gives_up_after_200_owners(rt: HostRuntime) -> Result<(), Fail> {
    let cases = [(200, Err(RetriesExhausted), 0), (199, Ok(5), 2)];
    for (owners, want, polls) in cases {
        let cache: Numbers = Cache::new(rt.alloc(), 100)?;
        let (dropped, asks) = (Asks::new(), Asks::new());
        let loaded = load_after(&rt, &cache, owners, &dropped, &asks)?;
        assert_eq!(rt; loaded, Ok(want), "after {owners} owners");
        let told = (dropped.polls(), asks.polls());
        assert_eq!(rt; told, (owners, polls), "polls, after {owners} owners");
    }
    Ok(())
}

#[test]
fn a_waiting_compute_is_asked_after_300_owners(rt: HostRuntime) -> Result<(), Fail> {
    let cache: Numbers = Cache::new(rt.alloc(), 100)?;
    let (dropped, asks) = (Asks::new(), Asks::new());
    let entry = Entry {
        key: Some(1),
        value: 5,
        fresh: true,
        replaced: false,
    };
    let computed = compute_after(&rt, &cache, 300, &dropped, &asks)?;
    assert_eq!(rt; computed, Ok(CompResult::Inserted(entry)));
    let told = (dropped.polls(), asks.polls());
    assert_eq!(rt; told, (300, 2));
    Ok(())
}
