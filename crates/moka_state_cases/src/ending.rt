//! The end of the call numbers.

ghost use Rattle.std.specs.Prelude.{IsSome, IfSome};
ghost use Rattle.futures.specs.Poll.{OnPending};
ghost use Rattle.futures.specs.Task.{IsArmed, Keeps};

use futures::Future;
use futures::executor::block_on;
use futures::task::{Context, Poll};
use moka_cache::{Cache, PollError, State};
use moka_cache_runs::asks::Asks;
use moka_cache_runs::caches::Numbers;
use moka_cache_runs::calls::Call::Own;
use moka_cache_runs::calls::Caller;
use moka_cache_runs::calls::Kind::OfKey;
use moka_cache_runs::calls::OfKey::Insert;
use moka_cache_runs::numbers::numbers;
use moka_cache_runs::replies::Reply;
use std::alloc::AllocGlobal;
use std::io;
use std::random::RandomSource;
use std::sync::Wait;
use std::test::Fail;

// A call that is polled once more where its first poll fails. It tells whether each of the two
// answered `CallsSpent`.
struct Twice<'a, R: Wait, S: State<R>> {
    rt: &'a R,
    state: Option<S>,
}

impl<R: Wait, S: State<R>> Drop for Twice<'_, R, S> {
    fn drop(self) {
        let Self { rt, state } = self;
        if let Some(state) = state {
            state.cancel(rt);
        }
    }
}

impl<R: Wait, S: State<R, Output: Drop>> Future for Twice<'_, R, S> {
    type Output = (bool, bool);

    ghost can_poll = { λ t. IsSome t.state × IfSome t.state S.can_poll };

    fn poll(&mut self, cx: &mut Context<'_>) -> Poll<(bool, bool)> {
        match &mut self.state {
            Some(state) => poll_twice(state, self.rt, cx),
            None => unreachable!(),
        }
    }
}

fn poll_twice<R: Wait, S: State<R, Output: Drop>>(
    state: &mut S,
    rt: &R,
    cx: &mut Context<'_>,
) -> Poll<(bool, bool)>
    requires { S.can_poll state.old }
    ensures pending { OnPending result (S.can_poll state.new) }
    ensures armed { OnPending result (IsArmed cx.new) }
    ensures kept { Keeps cx.old cx.new }
{
    match state.poll(rt, cx, 0) {
        Poll::Ready(Ok(_)) => Poll::Ready((false, false)),
        Poll::Ready(Err(first)) => poll_after(first, state, rt, cx),
        Poll::Pending => Poll::Pending,
    }
}

// The second poll, after one that failed so.
fn poll_after<R: Wait, S: State<R, Output: Drop>>(
    first: PollError,
    state: &mut S,
    rt: &R,
    cx: &mut Context<'_>,
) -> Poll<(bool, bool)>
    requires { S.can_poll state.old }
    ensures pending { OnPending result (S.can_poll state.new) }
    ensures armed { OnPending result (IsArmed cx.new) }
    ensures kept { Keeps cx.old cx.new }
{
    let first = first == PollError::CallsSpent;
    match state.poll(rt, cx, 0) {
        Poll::Ready(Ok(_)) => Poll::Ready((first, false)),
        Poll::Ready(Err(second)) => Poll::Ready((first, second == PollError::CallsSpent)),
        Poll::Pending => Poll::Pending,
    }
}

// Polls the call until it answers, and once more where that fails.
fn run_twice<R: Wait + RandomSource + AllocGlobal, S: State<R, Output: Drop>>(
    rt: &R,
    state: S,
) -> io::Result<(bool, bool)>
    requires { S.can_poll state }
{
    let state = Some(state);
    block_on(rt, Twice { rt, state })
}

#[test]
fn no_call_begins_after_the_last_number(rt: HostRuntime) -> Result<(), Fail> {
    let cache: Numbers = Cache::starting_after(rt.alloc(), None, Some(100), u64::MAX - 1)?;
    let caller = Caller {
        rt: &rt,
        cache: &cache,
        asks: &Asks::new(),
    };
    assert_eq!(rt; caller.run(&Own(1, OfKey(Insert(5))))?, Reply::Done);
    let twice = run_twice(&rt, numbers(cache.get(&1)))?;
    assert_eq!(rt; twice, (true, true));
    assert!(rt; cache.contains_key(&rt, &1, 0)?);
    Ok(())
}
