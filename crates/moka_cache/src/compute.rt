//! Whom a compute asks what is to be done.
ghost use Rattle.std.specs.Prelude.{⊤, Option, Result};
ghost use Rattle.std.specs.Option.{option_copied};
ghost use Rattle.futures.specs.Poll.{IfReady, OnPending};
ghost use Rattle.futures.specs.Task.{IsArmed, Keeps};
ghost use Rattle.moka_hist.specs.declared.entries.Entry.{Entry};
ghost use Rattle.moka_hist.specs.declared.events.Op.{Op};

use futures::task::{Context, Poll};
use moka_hist::{Entry, Op};

/// What is to be done with a key. The task that polls the compute's state calls it, without the
/// lock: `start` once, when the compute is the owner and has looked the key up, and then `poll`
/// until it gives its output; then it is dropped.
pub trait Compute<K, V, E>: Drop {
    /// Holds of the states in which it may be started with this.
    ghost can_start: { Self → Option (Entry K V) → Type 0 } = { λ _ _. ⊤ };

    /// Holds of the states in which it may be polled, once it was started.
    ghost can_poll: { Self → Type 0 } = { λ _. ⊤ };

    /// Holds of each output that it may give.
    ghost gives: { Self → Result (Op V) E → Type 0 } = { λ _ _. ⊤ };

    /// Holds of its states before and after a poll that answers Pending.
    ghost pends: { Self → Self → Type 0 } = { λ _ _. ⊤ };

    /// Holds of its states once it was started with this.
    ghost started: { Self → Option (Entry K V) → Type 0 } = { λ _ _. ⊤ };

    /// Starts with what the key has, if anything: the stored key and its value, neither fresh nor
    /// replaced.
    fn start(&mut self, found: Option<&Entry<K, V>>)
        requires { can_start self.old (option_copied found) }
        ensures ready { can_poll self.new }
        ensures started { started self.new (option_copied found.entry) }
        ensures same { (r : Result (Op V) E) → gives self.new r → gives self.old r };

    /// Goes on. Where it answers Pending it has seen to it that the task is polled again.
    fn poll(&mut self, cx: &mut Context<'_>) -> Poll<Result<Op<V>, E>>
        requires { can_poll self.old }
        // What it gives, and that a poll which gives nothing allows no further output.
        ensures value { IfReady result (gives self.old) }
        ensures same { OnPending result ((r : Result (Op V) E) → gives self.new r
            → gives self.old r) }
        // Where it gives nothing.
        ensures started { OnPending result ((found : Option (Entry K V))
            → started self.old found → started self.new found) }
        ensures again { OnPending result (can_poll self.new) }
        ensures pending { OnPending result (pends self.old self.new) }
        ensures armed { OnPending result (IsArmed cx.new) }
        ensures kept { Keeps cx.old cx.new };
}
