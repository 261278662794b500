//! What follows a hold of the lock, without it: who is asked begins, and the listener is started,
//! and polled.
ghost use Rattle.std.specs.Prelude.{◌≡◌, ◌⊎◌, Some, None, IfNone, IfSome, IsSome};
ghost use Rattle.std.specs.Option.{option_or};
ghost use Rattle.moka_kept.specs.Meets.{pair_asked, pair_told};
ghost use Rattle.futures.specs.Poll.{IfReady, OnPending};
ghost use Rattle.futures.specs.Task.{IsArmed, Keeps};
ghost use Rattle.moka_cache.specs.Asked.{BegunBy, BegunFor, FoundSo, entry_of};
ghost use Rattle.moka_kept.specs.Ends.{MayEnd};
ghost use Rattle.moka_kept.specs.Stops.{IsWaiting};
ghost use Rattle.moka_cache.specs.Hearing.{Awaits, Ends, FollowsStop, IsHeard, MayPend, Unheard};
ghost use Rattle.moka_cache.specs.Hearing.{WasPolled, heard_by, heard_in, over_in, standing_at};
ghost use Rattle.moka_cache.specs.Stays.{AskedStays};

use crate::asked::Asked;
use crate::cache::Shared;
use crate::errors::PollError;
use futures::task::{Context, Poll};
use moka_facts::Fact;
use moka_hist::{Answer, Entry};
use moka_kept::{DueNotice, Heard, Listener, Live, OwnAsk, Stop};
use moka_values::Exact;
use std::hash::{BuildHasher, Hash};

/// How a turn of a poll leaves its call. It has no `Drop`, so that no end of a notice is let go.
pub(crate) enum Turned<T> {
    /// The call goes on. If the listener gave the end of its notice the next hold of the lock tells
    /// it.
    On(Option<Heard>),
    /// The poll is over, and answers this.
    Over(Poll<T>),
}

impl<K, V, E, L, S, P> Shared<K, V, E, L, S, P>
where
    K: Eq + Hash + Exact,
    V: Exact,
    E: Exact,
    L: Listener<K, V>,
    S: BuildHasher + Drop,
    P: Fact<K, V>,
{
    /// What follows a hold that left the call of the flow so: a listener that it asks is started;
    /// who answers its own ask begins, where that is of a compute; and where the call stands at a
    /// notice, which runs, the listener is polled for that: its own, that of an owed write that it
    /// took up, or that which keeps the lock that it waits for.
    pub(crate) fn after<Q: Asked<K, V, E, P>>(
        &self,
        flow: &Live<K, V, E>,
        stop: Stop<K, V, E>,
        asked: &mut Q,
        cx: &mut Context<'_>,
    ) -> Turned<Result<Answer<K, V, E>, PollError>>
        requires waits { IsWaiting stop → IsArmed cx.old }
        requires so { (pair : K × V) → pair_told stop ≡ Some pair → P.holds pair.0 pair.1 }
        requires asks { Q.can_poll asked.old }
        requires hears { (l : L) (key : K) (value : V) → P.holds key value
            → L.hears l key value }
        ensures begun { BegunBy Q.begins stop asked.old asked.new }
        ensures asked { AskedStays Q.can_poll Q.gives Q.tests asked.old asked.new }
        ensures follows { FollowsStop stop (over_in result) }
        ensures cause { over_in result ≡ Some Poll.Pending
            → IsWaiting stop
            ⊎ Awaits (Unheard L.pends self.now.listener) (standing_at stop flow.now) }
        // What the next hold is to tell, and that a listener that is awaited was polled.
        ensures heard { IfSome (heard_in result)
            (IsHeard (Ends (MayEnd L.quits) self.now.listener) (standing_at stop flow.now)) }
        ensures polled { over_in result ≡ Some Poll.Pending
            → WasPolled L.pends self.now.listener (standing_at stop flow.now) }
        ensures armed { over_in result ≡ Some Poll.Pending → IsArmed cx.new }
        ensures kept { Keeps cx.old cx.new }
    {
        match stop {
            Stop::Going => Turned::On(None),
            Stop::Asks(ask) => {
                begin_asked::<K, V, E, Q, P>(ask, asked);
                Turned::On(None)
            }
            Stop::Due(due) => self.after_due(flow, due, cx),
            Stop::Waits(_, kept) => self.after_wait(flow, kept, cx),
            Stop::Answers(answer) => Turned::Over(Poll::Ready(Ok(answer))),
            Stop::Memory => Turned::Over(Poll::Ready(Err(PollError::Memory))),
        }
    }

    // The call asks the listener: that is started, and polled for the first time.
    fn after_due(
        &self,
        flow: &Live<K, V, E>,
        due: DueNotice<K, V>,
        cx: &mut Context<'_>,
    ) -> Turned<Result<Answer<K, V, E>, PollError>>
        requires so { P.holds due.key due.value }
        requires hears { (l : L) (key : K) (value : V) → P.holds key value
            → L.hears l key value }
        ensures pends { MayPend (over_in result) }
        ensures cause { over_in result ≡ Some Poll.Pending
            → Awaits (Unheard L.pends self.now.listener) (heard_by flow.now) }
        // What the next hold is to tell, and that a listener that is awaited was polled.
        ensures heard { IfSome (heard_in result)
            (IsHeard (Ends (MayEnd L.quits) self.now.listener) (heard_by flow.now)) }
        ensures polled { over_in result ≡ Some Poll.Pending
            → WasPolled L.pends self.now.listener (heard_by flow.now) }
        ensures armed { over_in result ≡ Some Poll.Pending → IsArmed cx.new }
        ensures kept { Keeps cx.old cx.new }
    {
        due.start(&self.listener);
        match self.hear(flow.notice(), cx) {
            Some(poll) => go_with(poll),
            None => Turned::On(None),
        }
    }

    // The call waits. If that is for the end of a notice, or for a lock which a notice keeps, the
    // listener is polled for that.
    fn after_wait(
        &self,
        flow: &Live<K, V, E>,
        kept: Option<u64>,
        cx: &mut Context<'_>,
    ) -> Turned<Result<Answer<K, V, E>, PollError>>
        ensures pends { MayPend (over_in result) }
        // What the next hold is to tell, and that a listener that is awaited was polled.
        ensures heard { IfSome (heard_in result) (IsHeard
            (Ends (MayEnd L.quits) self.now.listener) (option_or kept (heard_by flow.now))) }
        ensures polled { over_in result ≡ Some Poll.Pending
            → WasPolled L.pends self.now.listener (option_or kept (heard_by flow.now)) }
        ensures kept { Keeps cx.old cx.new }
    {
        match self.hear(at_notice(kept, flow), cx) {
            Some(poll) => go_with(poll),
            None => Turned::Over(Poll::Pending),
        }
    }

    // Polls the listener for the notice at which a call stands. None where it stands at none, or
    // there is no listener.
    fn hear(&self, at: Option<u64>, cx: &mut Context<'_>) -> Option<Poll<Heard>>
        ensures cause { result ≡ Some Poll.Pending
            → Awaits (Unheard L.pends self.now.listener) at }
        ensures ended { IfSome result (λ polled. IfReady polled
            (IsHeard (Ends (MayEnd L.quits) self.now.listener) at)) }
        ensures none { IfNone result (IsSome self.now.listener → at ≡ None) }
        ensures armed { result ≡ Some Poll.Pending → IsArmed cx.new }
        ensures kept { Keeps cx.old cx.new }
    {
        match &self.listener {
            Some(listener) => hear_by(listener, at, cx),
            None => None,
        }
    }
}

// The notice at which the call stands: that which keeps the lock that it waits for, or else that
// whose end it awaits.
fn at_notice<K, V, E>(kept: Option<u64>, flow: &Live<K, V, E>) -> Option<u64>
    ensures { result ≡ option_or kept (heard_by flow.now) }
{
    match kept {
        Some(notice) => Some(notice),
        None => flow.notice(),
    }
}

// Who answers the call's own ask begins, if that is of a compute; it is polled in the next turn.
fn begin_asked<K: Eq + Drop, V: Drop, E, Q: Asked<K, V, E, P>, P: Fact<K, V>>(
    ask: OwnAsk<K, V>,
    asked: &mut Q,
)
    requires asks { Q.can_poll asked.old }
    requires so { (pair : K × V) → pair_asked ask ≡ Some pair → P.holds pair.0 pair.1 }
    ensures begun { BegunFor Q.begins ask asked.old asked.new }
    ensures asked { AskedStays Q.can_poll Q.gives Q.tests asked.old asked.new }
{
    match ask {
        OwnAsk::Init => {}
        OwnAsk::Compute(found) => begin_with::<K, V, E, Q, P>(asked, found),
    }
}

// Who answers the own ask of a compute begins with the pair that its look found, if it found one.
fn begin_with<K: Eq + Drop, V: Drop, E, Q: Asked<K, V, E, P>, P: Fact<K, V>>(
    asked: &mut Q,
    found: Option<(K, V)>,
)
    requires asks { Q.can_poll asked.old }
    requires so { FoundSo P.holds (entry_of found) }
    ensures begun { Q.begins asked.old (entry_of found) asked.new }
    ensures asked { AskedStays Q.can_poll Q.gives Q.tests asked.old asked.new }
{
    let entry = entry_of(found);
    asked.begin(entry.as_ref());
}

// The pair as an entry, if there is one: with the stored key, and neither flag.
fn entry_of<K, V>(found: Option<(K, V)>) -> Option<Entry<K, V>>
    ensures { result ≡ entry_of found }
{
    match found {
        Some((key, value)) => Some(Entry {
            key: Some(key),
            value,
            fresh: false,
            replaced: false,
        }),
        None => None,
    }
}

// Polls this listener for the notice at which a call stands. None where it stands at none.
fn hear_by<K, V, L: Listener<K, V>>(
    listener: &L,
    at: Option<u64>,
    cx: &mut Context<'_>,
) -> Option<Poll<Heard>>
    ensures cause { result ≡ Some Poll.Pending → Awaits (L.pends listener.now) at }
    ensures ended { IfSome result (λ polled. IfReady polled
        (IsHeard (MayEnd L.quits listener.now) at)) }
    ensures none { IfNone result (at ≡ None) }
    ensures armed { result ≡ Some Poll.Pending → IsArmed cx.new }
    ensures kept { Keeps cx.old cx.new }
{
    match at {
        Some(notice) => Some(poll_notice(listener, notice, cx)),
        None => None,
    }
}

// Polls the listener for this notice.
fn poll_notice<K, V, L: Listener<K, V>>(
    listener: &L,
    notice: u64,
    cx: &mut Context<'_>,
) -> Poll<Heard>
    ensures pending { OnPending result (L.pends listener.now notice) }
    ensures ended { IfReady result (λ heard. (heard.notice ≡ notice)
        × MayEnd L.quits listener.now notice heard.end) }
    ensures armed { OnPending result (IsArmed cx.new) }
    ensures kept { Keeps cx.old cx.new }
{
    match listener.poll(notice, cx) {
        Poll::Ready(end) => Poll::Ready(Heard::new(notice, end)),
        Poll::Pending => Poll::Pending,
    }
}

// Once the listener gave the end of a notice, the call goes on with that.
fn go_with<T>(poll: Poll<Heard>) -> Turned<T>
    ensures pends { MayPend (over_in result) }
    ensures same { over_in result ≡ Some Poll.Pending → poll ≡ Poll.Pending }
    ensures heard { IfSome (heard_in result) (λ heard. poll ≡ Poll.Ready heard) }
{
    match poll {
        Poll::Ready(heard) => Turned::On(Some(heard)),
        Poll::Pending => Turned::Over(Poll::Pending),
    }
}
