//! A call as a future that waits for memory, and not for ever.
ghost use Rattle.std.specs.Prelude.{IfSome};
ghost use Rattle.futures.specs.Poll.{OnPending};
ghost use Rattle.futures.specs.Task.{IsArmed, Keeps};

use futures::Future;
use futures::task::{Context, Poll};
use moka_cache::{PollError, State};
use std::sync::Wait;

/// A call whose poll is made again at once where it finds no memory, so no other task comes between.
/// Once it found none so many times, that is its answer. It is cancelled at the last of so many
/// polls that pend, and gives no answer then.
pub(crate) struct Patient<'a, R: Wait, S: State<R>> {
    rt: &'a R,
    call: Option<S>,
    pends: u64,
    tries: u32,
}

impl<'a, R: Wait, S: State<R>> Patient<'a, R, S> {
    pub(crate) fn new(rt: &'a R, call: S, pends: u64, tries: u32) -> Self
        requires { S.can_poll call }
        ensures { IfSome result.call S.can_poll }
    {
        Patient {
            rt,
            call: Some(call),
            pends,
            tries,
        }
    }
}

impl<R: Wait, S: State<R>> Drop for Patient<'_, R, S> {
    fn drop(self) {
        let Self {
            rt,
            call,
            pends: _,
            tries: _,
        } = self;
        if let Some(call) = call {
            call.cancel(rt);
        }
    }
}

impl<R: Wait, S: State<R, Output: Drop>> Future for Patient<'_, R, S> {
    type Output = Option<Result<S::Output, PollError>>;

    ghost can_poll = { λ patient. IfSome patient.call S.can_poll };

    fn poll(&mut self, cx: &mut Context<'_>) -> Poll<Self::Output> {
        let Some(mut call) = self.call.take() else {
            return Poll::Ready(None);
        };
        match poll_with_memory(self.rt, &mut call, cx, self.tries) {
            Poll::Ready(answer) => {
                call.cancel(self.rt);
                Poll::Ready(Some(answer))
            }
            Poll::Pending => self.wait(call),
        }
    }
}

impl<R: Wait, S: State<R, Output: Drop>> Patient<'_, R, S> {
    // The call waits, if it may. Else it is cancelled.
    fn wait(&mut self, call: S) -> Poll<Option<Result<S::Output, PollError>>>
        requires { S.can_poll call }
        ensures { OnPending result (IfSome self.new.call S.can_poll) }
    {
        self.pends = self.pends.saturating_sub(1);
        if self.pends == 0 {
            call.cancel(self.rt);
            return Poll::Ready(None);
        }
        if let Some(other) = self.call.replace(call) {
            other.cancel(self.rt);
        }
        Poll::Pending
    }
}

// Polls the call until a poll finds memory, or so many found none.
fn poll_with_memory<R: Wait, S: State<R, Output: Drop>>(
    rt: &R,
    call: &mut S,
    cx: &mut Context<'_>,
    tries: u32,
) -> Poll<Result<S::Output, PollError>>
    requires { S.can_poll call.old }
    ensures pending { OnPending result (S.can_poll call.new) }
    ensures armed { OnPending result (IsArmed cx.new) }
    ensures kept { Keeps cx.old cx.new }
{
    for _ in 0..tries {
        match call.poll(rt, cx, 0) {
            Poll::Ready(Err(PollError::Memory)) => {}
            Poll::Ready(answer) => return Poll::Ready(answer),
            Poll::Pending => return Poll::Pending,
        }
    }
    Poll::Ready(Err(PollError::Memory))
}
