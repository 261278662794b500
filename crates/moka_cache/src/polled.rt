//! A future over a state.
ghost use Rattle.std.specs.Prelude.{◌≡◌, ◌↔◌, ⊤, IsSome, IfSome, IfErr, IfOk, OnErr};
ghost use Rattle.futures.specs.Poll.{IfReady, OnPending};
ghost use Rattle.futures.specs.Task.{IsArmed, Keeps};

use crate::errors::PollError;
use crate::moments::Moments;
use futures::Future;
use futures::task::{Context, Poll};
use std::sync::Wait;

/// A call of a cache as a state that is polled with this runtime. It has no `Drop`: one that has
/// answered is finished, and any other is cancelled.
pub trait State<R: Wait> {
    type Output;

    /// It has not answered.
    ghost can_poll: { Self → Type 0 };

    /// Holds of each answer that it may come to.
    ghost gives: { Self → Self.Output → Type 0 } = { λ _ _. ⊤ };

    /// No number was left for its call.
    ghost is_spent: { Self → Type 0 };

    /// Goes on at `moment`, in nanoseconds; one before the cache's clock counts as the clock.
    /// `CallsSpent` comes where no number was left, and no poll of it is pending then.
    fn poll(
        &mut self,
        rt: &R,
        cx: &mut Context<'_>,
        moment: u64,
    ) -> Poll<Result<Self::Output, PollError>>
        requires { can_poll self.old }
        ensures pending { OnPending result (can_poll self.new) }
        ensures failed { IfReady result (λ r. OnErr r (can_poll self.new)) }
        // What it answers, and that it may come to no other answer afterwards.
        ensures value { IfReady result (λ r. IfOk r (gives self.old)) }
        ensures same { OnPending result ((x : _) → gives self.new x → gives self.old x) }
        ensures same_failed { IfReady result (λ r. OnErr r
            ((x : _) → gives self.new x → gives self.old x)) }
        ensures spent { IfReady result (λ r. IfErr r (λ e.
            (e ≡ PollError.CallsSpent) ↔ is_spent self.new)) }
        ensures numbered { OnPending result (is_spent self.new → ⊥) }
        ensures armed { OnPending result (IsArmed cx.new) }
        ensures kept { Keeps cx.old cx.new };

    /// Drops the call: what it held is left to others, and those that wait for it are woken. It
    /// takes no memory. Where no call was begun, or it has answered, it does nothing.
    fn cancel(self, rt: &R);
}

/// A future over a state. Dropped before it has answered, it cancels the state. Where memory is
/// wanting it asks to be polled again.
pub struct Polled<'a, R: Wait, S: State<R>, M: Moments> {
    rt: &'a R,
    state: Option<S>,
    moments: M,
}

impl<'a, R: Wait, S: State<R>, M: Moments> Polled<'a, R, S, M> {
    /// Polls the state at moments that come from there.
    pub fn new(rt: &'a R, state: S, moments: M) -> Self
        ensures { result.state ≡ Some state }
    {
        Polled {
            rt,
            state: Some(state),
            moments,
        }
    }
}

impl<R: Wait, S: State<R>, M: Moments + Drop> Drop for Polled<'_, R, S, M> {
    fn drop(self) {
        let Self {
            rt,
            state,
            moments: _,
        } = self;
        if let Some(state) = state {
            state.cancel(rt);
        }
    }
}

impl<R: Wait, S: State<R>, M: Moments + Drop> Future for Polled<'_, R, S, M> {
    ghost use Rattle.moka_cache.specs.declared.errors.PollError.TheVariants as PollError;

    type Output = Result<S::Output, PollError>;

    ghost can_poll = { λ p. IsSome p.state × IfSome p.state S.can_poll };

    // What the state may come to, or that no number was left; never that memory was wanting.
    ghost gives = { λ p r. IfOk r (λ answer. IfSome p.state (λ state. S.gives state answer))
        × IfErr r (λ e. e ≡ PollError.CallsSpent) };

    fn poll(&mut self, cx: &mut Context<'_>) -> Poll<Self::Output> {
        let moment = self.moments.moment();
        match &mut self.state {
            Some(state) => poll_again(state, self.rt, cx, moment),
            None => unreachable!(),
        }
    }
}

// Polls the state. Where memory is wanting it asks to be polled again.
fn poll_again<R: Wait, S: State<R>>(
    state: &mut S,
    rt: &R,
    cx: &mut Context<'_>,
    moment: u64,
) -> Poll<Result<S::Output, PollError>>
    requires { S.can_poll state.old }
    ensures pending { OnPending result (S.can_poll state.new) }
    ensures value { IfReady result (λ r. IfOk r (S.gives state.old)) }
    ensures spent { IfReady result (λ r. IfErr r (λ e. e ≡ PollError.CallsSpent)) }
    ensures same { OnPending result ((x : _) → S.gives state.new x → S.gives state.old x) }
    ensures numbered { OnPending result (S.is_spent state.new → ⊥) }
    ensures armed { OnPending result (IsArmed cx.new) }
    ensures kept { Keeps cx.old cx.new }
{
    match state.poll(rt, cx, moment) {
        Poll::Ready(Ok(value)) => Poll::Ready(Ok(value)),
        Poll::Ready(Err(PollError::CallsSpent)) => Poll::Ready(Err(PollError::CallsSpent)),
        Poll::Ready(Err(PollError::Memory)) => cx.yield_now(),
        Poll::Pending => Poll::Pending,
    }
}
