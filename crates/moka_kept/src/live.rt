//! The flow of a call that has a number.
ghost use Rattle.std.specs.Prelude.{◌≡◌};
ghost use Rattle.std.specs.Option.{option_map};
ghost use Rattle.futures.specs.Task.{IsArmed, Keeps};
ghost use Rattle.moka_hist.specs.Plan.{hearing};
ghost use Rattle.moka_init.specs.FlowPlan.{IsOver, call_of, tested_in};
ghost use Rattle.moka_init.specs.Grounds.{access_at};
ghost use Rattle.moka_kept.specs.Facts.{facts};
ghost use Rattle.moka_kept.specs.Meets.{FlowMeets, StopSo};
ghost use Rattle.moka_kept.specs.Parked.{IsOwn};
ghost use Rattle.moka_kept.specs.Rests.{Rests};
ghost use Rattle.moka_kept.specs.Stops.{IsWaiting, StopIs, task_in};
ghost use Rattle.moka_kept.specs.Taking.{Brings, is_taking};

use crate::brought::Brought;
use crate::guarded::ToWake;
use crate::kept::Kept;
use crate::leaving::Left;
use crate::stop::Stop;
use futures::task::Context;
use moka_facts::Fact;
use moka_init::Flow;
use moka_values::Exact;
use std::hash::{BuildHasher, Hash};
use std::marker::Model;

/// The flow of a call that has a number, and whose going hasn't been told. Clauses see the flow. It
/// has no `Drop`, so nobody can let it go: a call that has answered ends it, and of any other
/// `Guarded::leave` makes the visit by which that leaves.
pub struct Live<K, V, E> {
    flow: Flow<K, V, E>,
}

impl<K, V, E> Model for Live<K, V, E> {
    ghost use Rattle.moka_init.specs.declared.flow.Flow.{Flow};

    ghost Value = { Flow K V E };

    ghost view = { λ live. live.flow };

    ghost invariant = { λ live. Unit {0} };
}

impl<K, V, E> Live<K, V, E> {
    /// The call of this flow has its number.
    pub(crate) fn of(flow: Flow<K, V, E>) -> Live<K, V, E>
        ensures { result ≡ flow }
    {
        Live { flow }
    }

    /// The flow.
    pub(crate) fn flow(&self) -> &Flow<K, V, E>
        ensures { result.now ≡ self.now }
    {
        &self.flow
    }

    /// The number of the call.
    pub fn number(&self) -> u64
        ensures { result ≡ self.now.call }
    {
        self.flow.number()
    }

    /// The notice whose end the call awaits: its own, or that of an owed write that it took up.
    pub fn notice(&self) -> Option<u64>
        ensures { result ≡ hearing self.now.call (call_of self.now).plan }
    {
        self.flow.notice()
    }

    /// The value on which the call's next visit asks its replace test, where it does.
    pub fn tested(&self) -> Option<&V>
        ensures { option_map (λ value. value.now) result ≡ tested_in (call_of self.now).plan }
    {
        self.flow.tested()
    }
}

impl<K: Eq + Hash + Exact, V: Exact, E: Exact> Live<K, V, E> {
    /// Makes steps of the flow with what lies under the lock, as `Kept::go` does.
    pub(crate) fn go<S: BuildHasher + Drop, P: Fact<K, V>>(
        &mut self,
        kept: &mut Kept<K, V, E, S, P>,
        key: &Option<K>,
        brought: Brought<V, E>,
        cx: &mut Context<'_>,
        woken: &mut ToWake,
    ) -> Stop<K, V, E>
        requires rests { Rests self.old }
        requires so { FlowMeets (facts K.eq P.holds) key.now
            (Brings (tested_in (call_of self.old).plan) brought) self.old }
        ensures stops { StopIs (facts K.eq P.holds)
            (Brings (tested_in (call_of self.old).plan) brought)
            self.old result self.new }
        ensures so { StopSo (facts K.eq P.holds) result }
        ensures armed { IsWaiting result → IsArmed cx.new }
        ensures own { IsWaiting result → IsOwn (task_in result) self.new.call cx.new }
        ensures kept { Keeps cx.old cx.new }
    {
        kept.go(&mut self.flow, key, brought, cx, woken)
    }
}

impl<K: Drop, V: Drop, E: Drop> Live<K, V, E> {
    /// Ends the flow of a call that has answered.
    pub fn end(self)
        requires { IsOver self }
    {
        let Live { flow } = self;
        drop(flow);
    }

    /// Ends the flow of a call that has left.
    pub(crate) fn let_go(self, _left: &Left)
        requires { _left.now.call ≡ self.call }
    {
        let Live { flow } = self;
        drop(flow);
    }
}

/// Whether the flow's next visit takes the answer to its own ask, which is open.
pub fn is_asking<K, V, E>(live: &Live<K, V, E>) -> bool
    ensures { result ≡ is_taking (access_at live.now) }
{
    live.flow.takes_told()
}
