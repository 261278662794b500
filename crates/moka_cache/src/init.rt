//! What a load runs to get its value.
ghost use Rattle.std.specs.Prelude.{⊤};
ghost use Rattle.futures.specs.Poll.{IfReady, OnPending};
ghost use Rattle.futures.specs.Task.{IsArmed, Keeps};

use futures::Future;
use futures::task::{Context, Poll};

/// The initializer of a load. The task that polls the load's state polls it, without the lock,
/// until it gives its output; then it is dropped.
pub trait Init<O>: Drop {
    /// Holds of the states in which it may be polled.
    ghost can_poll: { Self → Type 0 } = { λ _. ⊤ };

    /// Holds of each output that it may give.
    ghost gives: { Self → O → Type 0 } = { λ _ _. ⊤ };

    /// Holds of its states before and after a poll that answers Pending.
    ghost pends: { Self → Self → Type 0 } = { λ _ _. ⊤ };

    /// Goes on. Where it answers Pending it has seen to it that the task is polled again.
    fn poll(&mut self, cx: &mut Context<'_>) -> Poll<O>
        requires { can_poll self.old }
        // What it gives, and that a poll which gives nothing allows no further output.
        ensures value { IfReady result (gives self.old) }
        ensures same { OnPending result ((x : O) → gives self.new x → gives self.old x) }
        // Where it gives nothing.
        ensures again { OnPending result (can_poll self.new) }
        ensures pending { OnPending result (pends self.old self.new) }
        ensures armed { OnPending result (IsArmed cx.new) }
        ensures kept { Keeps cx.old cx.new };
}

/// Any future is an initializer, which gives what it gives.
impl<F: Future> Init<F::Output> for F {
    ghost can_poll = { F.can_poll };

    ghost gives = { F.gives };

    fn poll(&mut self, cx: &mut Context<'_>) -> Poll<F::Output> {
        Future::poll(self, cx)
    }
}
