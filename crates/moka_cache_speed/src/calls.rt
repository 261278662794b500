//! Calls of a cache, made one after the other by one task.
ghost use Rattle.std.specs.Prelude.{◌≡◌, Some, None, IfSome};
ghost use Rattle.futures.specs.Poll.{OnPending};
ghost use Rattle.futures.specs.Task.{IsArmed, Keeps};

use futures::Future;
use futures::executor::block_on;
use futures::task::{Context, Poll};
use moka_cache::State;
use std::alloc::AllocGlobal;
use std::io;
use std::random::RandomSource;
use std::sync::Wait;

/// Where the calls of a task come from.
pub(crate) trait Begins<R: Wait, S: State<R>> {
    /// The state of the call of this number.
    fn begin(&self, call: u64) -> S
        ensures { S.can_poll result };
}

/// Makes the calls from one number up to another, and tells how many answered.
pub(crate) fn make_calls<R, S, B>(rt: &R, begins: &B, first: u64, end: u64) -> io::Result<u64>
where
    R: Wait + RandomSource + AllocGlobal,
    S: State<R, Output: Drop>,
    B: Begins<R, S>,
{
    block_on(rt, Calls::new(rt, begins, first, end))
}

/// A future that makes calls one after the other. It gives how many answered.
struct Calls<'a, R: Wait, S: State<R>, B: Begins<R, S>> {
    rt: &'a R,
    begins: &'a B,
    waits: Option<S>,
    next: u64,
    end: u64,
    answered: u64,
}

impl<'a, R: Wait, S: State<R>, B: Begins<R, S>> Calls<'a, R, S, B> {
    /// Makes the calls from one number up to another.
    fn new(rt: &'a R, begins: &'a B, first: u64, end: u64) -> Self
        ensures { result.waits ≡ None }
    {
        Calls {
            rt,
            begins,
            waits: None,
            next: first,
            end,
            answered: 0,
        }
    }
}

impl<R: Wait, S: State<R>, B: Begins<R, S>> Drop for Calls<'_, R, S, B> {
    fn drop(self) {
        let Self {
            rt,
            begins: _,
            waits,
            next: _,
            end: _,
            answered: _,
        } = self;
        if let Some(state) = waits {
            state.cancel(rt);
        }
    }
}

impl<R: Wait, S: State<R, Output: Drop>, B: Begins<R, S>> Calls<'_, R, S, B> {
    // Goes on with the call that waits, or makes the next one.
    fn make(&mut self, cx: &mut Context<'_>) -> Poll<()>
        requires { IfSome self.old.waits S.can_poll }
        ensures can { IfSome self.new.waits S.can_poll }
        ensures armed { OnPending result (IsArmed cx.new) }
        ensures kept { Keeps cx.old cx.new }
    {
        match self.waits.take() {
            Some(state) => self.go_on(state, cx),
            None => self.make_next(cx),
        }
    }

    // Makes the next call, as none waits.
    fn make_next(&mut self, cx: &mut Context<'_>) -> Poll<()>
        requires { self.old.waits ≡ None }
        ensures can { IfSome self.new.waits S.can_poll }
        ensures armed { OnPending result (IsArmed cx.new) }
        ensures kept { Keeps cx.old cx.new }
    {
        let state = self.begins.begin(self.next);
        self.go_on(state, cx)
    }

    // Goes on with a call, which waits from then on or is over.
    fn go_on(&mut self, state: S, cx: &mut Context<'_>) -> Poll<()>
        requires can { S.can_poll state }
        requires none { self.old.waits ≡ None }
        ensures can { IfSome self.new.waits S.can_poll }
        ensures armed { OnPending result (IsArmed cx.new) }
        ensures kept { Keeps cx.old cx.new }
    {
        let mut state = state;
        match poll_once(&mut state, self.rt, cx) {
            Poll::Ready(answered) => self.count(state, answered),
            Poll::Pending => self.keep(state),
        }
    }

    // The call is over.
    fn count(&mut self, state: S, answered: bool) -> Poll<()>
        ensures ready { result ≡ Poll.Ready tt }
        ensures same { self.new.waits ≡ self.old.waits }
    {
        state.cancel(self.rt);
        self.next = self.next.wrapping_add(1);
        self.answered = self.answered.wrapping_add(u64::from(answered));
        Poll::Ready(())
    }

    // The call waits.
    fn keep(&mut self, state: S) -> Poll<()>
        ensures pending { result ≡ Poll.Pending }
        ensures kept { self.new.waits ≡ Some state }
    {
        if let Some(other) = self.waits.replace(state) {
            other.cancel(self.rt);
        }
        Poll::Pending
    }
}

impl<R: Wait, S: State<R, Output: Drop>, B: Begins<R, S>> Future for Calls<'_, R, S, B> {
    type Output = u64;

    ghost can_poll = { λ calls. IfSome calls.waits S.can_poll };

    fn poll(&mut self, cx: &mut Context<'_>) -> Poll<u64> {
        for _ in self.next..self.end {
            match self.make(cx) {
                Poll::Ready(()) => {}
                Poll::Pending => return Poll::Pending,
            }
        }
        Poll::Ready(self.answered)
    }
}

// Goes on with a call, and tells whether it answered once it is over.
fn poll_once<R: Wait, S: State<R, Output: Drop>>(
    state: &mut S,
    rt: &R,
    cx: &mut Context<'_>,
) -> Poll<bool>
    requires { S.can_poll state.old }
    ensures pending { OnPending result (S.can_poll state.new) }
    ensures armed { OnPending result (IsArmed cx.new) }
    ensures kept { Keeps cx.old cx.new }
{
    match state.poll(rt, cx, 0) {
        Poll::Ready(Ok(_)) => Poll::Ready(true),
        Poll::Ready(Err(_)) => Poll::Ready(false),
        Poll::Pending => Poll::Pending,
    }
}
