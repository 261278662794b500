//! Who is asked where a call asks its caller.
ghost use Rattle.std.specs.Prelude.{◌≡◌, true, Bool, IfSome, Option};
ghost use Rattle.std.specs.Bool.{OnFalse, OnTrue};
ghost use Rattle.std.specs.Option.{option_copied};
ghost use Rattle.futures.specs.Poll.{IfReady, OnPending};
ghost use Rattle.futures.specs.Task.{IsArmed, Keeps};
ghost use Rattle.moka_hist.specs.declared.entries.Entry.{Entry};
ghost use Rattle.moka_hist.specs.declared.events.Told.{Told};
ghost use Rattle.moka_init.specs.Grounds.{access_at};
ghost use Rattle.moka_kept.specs.Taking.{NoAnswer, is_taking};
ghost use Rattle.moka_cache.specs.Asked.{AsksNothing, FoundSo, Untested};

use futures::task::{Context, Poll};
use moka_facts::Fact;
use moka_hist::{Entry, Told};
use moka_kept::{Live, is_asking};
use moka_values::Exact;

/// What answers the own ask of a call, and its replace test: an initializer or a compute. It is
/// called without the lock: begun where the ask of a compute opens, polled as long as the ask is
/// open, and asked its test right before the visit that judges by it. `P` is the fact of the cache:
/// it is begun with what meets that, and asked its test on values that do.
pub trait Asked<K: Eq, V, E, P: Fact<K, V>>: Drop {
    /// Holds of the states in which it may be polled.
    ghost can_poll: { Self → Type 0 };

    /// Holds of each answer that it may give.
    ghost gives: { Self → Told V E → Type 0 };

    /// Holds of its states before and after a poll that answers Pending.
    ghost pends: { Self → Self → Type 0 };

    /// Holds of its states before and after it was begun with this.
    ghost begins: { Self → Option (Entry K V) → Self → Type 0 };

    /// Holds of each answer that its replace test may give on a value.
    ghost tests: { Self → V → Bool → Type 0 };

    /// Holds of its states before and after its replace test was asked once, on a value and with
    /// this answer.
    ghost asks: { Self → V → Bool → Self → Type 0 };

    /// Whether the call has somebody to ask. Without anybody no answer is ever given.
    fn is_somebody(&self) -> bool
        ensures { OnFalse result ((told : Told V E) → gives self.now told → ⊥) };

    /// Begins, where the ask of a compute was opened, with what its look found.
    fn begin(&mut self, found: Option<&Entry<K, V>>)
        requires can { can_poll self.old }
        requires so { FoundSo P.holds (option_copied found) }
        ensures begun { begins self.old (option_copied found.entry) self.new }
        ensures again { can_poll self.new }
        ensures same { (told : Told V E) → gives self.new told → gives self.old told }
        ensures tested { (value : V) (replaced : Bool) → tests self.new value replaced
            → tests self.old value replaced };

    /// Whether the value of a record is to be replaced: asks its replace test. It is asked without
    /// the lock, right before the visit that judges the record. Without a test the answer is false.
    fn replaces(&mut self, value: &V) -> bool
        requires can { can_poll self.old }
        requires so { (key : K) × P.holds key value.now }
        // What it answers, by one ask, and that it may give no other answer afterwards.
        ensures answers { tests self.old value.now result }
        ensures once { asks self.old value.now result self.new }
        ensures same { (told : Told V E) → gives self.new told → gives self.old told }
        ensures tested { (value : V) (replaced : Bool) → tests self.new value replaced
            → tests self.old value replaced }
        ensures again { can_poll self.new };

    /// Goes on with its answer. Answers None where it has none to give, or gave it before.
    fn poll(&mut self, cx: &mut Context<'_>) -> Poll<Option<Told<V, E>>>
        requires { can_poll self.old }
        // What it gives, and that it may give no other answer afterwards.
        ensures value { IfReady result (λ told. IfSome told (gives self.old)) }
        ensures same { (told : Told V E) → gives self.new told → gives self.old told }
        ensures tested { (value : V) (replaced : Bool) → tests self.new value replaced
            → tests self.old value replaced }
        ensures again { can_poll self.new }
        // Where it gives nothing yet.
        ensures pending { OnPending result (pends self.old self.new) }
        ensures armed { OnPending result (IsArmed cx.new) }
        ensures kept { Keeps cx.old cx.new };
}

/// Whether who is asked is to be polled, or begun: the own ask of the flow is open. Where there is
/// nobody to be asked the flow isn't looked at.
pub(crate) fn is_polled<K: Eq, V, E, Q: Asked<K, V, E, P>, P: Fact<K, V>>(
    asked: &Q,
    flow: &Live<K, V, E>,
) -> bool
    ensures asking { OnTrue result (is_taking (access_at flow.now) ≡ true) }
    // Where it is open and isn't polled, nobody gives an answer.
    ensures unasked { OnFalse result (is_taking (access_at flow.now) ≡ true
        → (told : Told V E) → Q.gives asked.now told → ⊥) }
{
    asked.is_somebody() && is_asking(flow)
}

/// What a call that asks nothing has in place of an initializer or a compute.
#[derive(Drop)]
pub struct Nobody;

impl<K: Eq, V, E, P: Fact<K, V>> Asked<K, V, E, P> for Nobody {
    ghost can_poll = { λ nobody. Unit {0} };

    ghost gives = { λ nobody. NoAnswer };

    ghost pends = { λ old new. ⊥ };

    ghost begins = { λ old found new. new ≡ old };

    fn is_somebody(&self) -> bool {
        false
    }

    fn begin(&mut self, _found: Option<&Entry<K, V>>) {}

    ghost tests = { λ nobody. Untested };

    ghost asks = { AsksNothing };

    fn replaces(&mut self, _value: &V) -> bool {
        false
    }

    fn poll(&mut self, _cx: &mut Context<'_>) -> Poll<Option<Told<V, E>>> {
        Poll::Ready(None)
    }
}
