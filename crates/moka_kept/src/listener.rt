//! Who hears of records that leave.
ghost use Rattle.std.specs.Prelude.{⊤, ℕ};
ghost use Rattle.futures.specs.Poll.{IfReady, OnPending};
ghost use Rattle.futures.specs.Task.{IsArmed, Keeps};
ghost use Rattle.moka_kept.specs.Ends.{MayEnd};

use crate::heard::ListenerEnd;
use futures::task::{Context, Poll};
use moka_hist::Cause;

/// A listener, which hears of each record that a write replaced or a call took out, by a notice
/// that has the number of that call. All threads share it. It is called without the lock.
///
/// A closure is one, and hears each notice to its end when it is called.
pub trait Listener<K, V>: Drop {
    /// Holds of the keys and values that it may be started with.
    ghost hears: { Self → K → V → Type 0 } = { λ _ _ _. ⊤ };

    /// Holds of the notices that a poll leaves pending.
    ghost pends: { Self → ℕ → Type 0 } = { λ _ _. ⊤ };

    /// Holds of the notices with which it quits: those that a poll ends by Off.
    ghost quits: { Self → ℕ → Type 0 } = { λ _ _. ⊤ };

    /// Begins to hear that the value has left the key, and why: once for each notice, before the
    /// first poll of that.
    fn start(&self, notice: u64, key: &K, value: &V, cause: Cause)
        requires { hears self.now key.now value.now };

    /// Goes on with a notice that was started and has not ended. Where it answers Pending it has
    /// seen to it that the task is polled again. If the call of the notice is dropped, the next
    /// call that takes its write up, or that needs the lock of its key, goes on with the notice:
    /// so the tasks of several calls may poll for one. No two notices of one key are open at once.
    ///
    /// A listener that hears at once leaves it as it is: it answers Done.
    fn poll(&self, notice: u64, cx: &mut Context<'_>) -> Poll<ListenerEnd>
        ensures pending { OnPending result (pends self.now notice) }
        ensures ended { IfReady result (MayEnd quits self.now notice) }
        ensures armed { OnPending result (IsArmed cx.new) }
        ensures kept { Keeps cx.old cx.new }
    {
        Poll::Ready(ListenerEnd::Done)
    }
}

/// The listener of a cache without one.
#[derive(Drop)]
pub struct NoListener;

impl<K, V> Listener<K, V> for NoListener {
    ghost pends = { λ nobody notice. ⊥ };

    fn start(&self, _notice: u64, _key: &K, _value: &V, _cause: Cause) {}

    fn poll(&self, _notice: u64, _cx: &mut Context<'_>) -> Poll<ListenerEnd> {
        Poll::Ready(ListenerEnd::Off)
    }
}

/// A closure is called with what has left, and its notice has ended then. It hears only where it
/// may be called with whatever leaves.
impl<K, V, F: Fn(&K, &V, Cause) + Drop> Listener<K, V> for F {
    ghost hears = { λ heard key value. F.IsAlwaysCallable heard };

    ghost pends = { λ heard notice. ⊥ };

    ghost quits = { λ heard notice. ⊥ };

    fn start(&self, _notice: u64, key: &K, value: &V, cause: Cause) {
        self(key, value, cause);
    }
}
