//! What lies under the lock of a cache.
ghost use Rattle.std.specs.Prelude.{◌≡◌, ◌<◌, ℕ, Bool, Option, None, IfSome, nat_eq};
ghost use Rattle.std.specs.HashMap.{get};
ghost use Rattle.moka_kept.specs.Kept.{IsKept};
ghost use Rattle.moka_kept.specs.Stops.{FindsKept, IsWaiting, kept_in, stop_asking};

use crate::brought::Brought;
use crate::due::DueNotice;
use crate::ground::Reach;
use crate::guarded::ToWake;
use crate::heard::Heard;
use crate::leaving::Left;
use crate::number::Number;
use crate::parked::{HandedOut, Parked};
use crate::reaching::{goes_on, is_unasked};
use crate::stop::{OwnAsk, Stop};
use futures::task::Context;
use moka_facts::Fact;
use moka_hist::{Answer, Ask, Rules, Turn};
use moka_init::Flow;
use moka_values::Exact;
use std::alloc::{AllocError, Global};
use std::hash::{BuildHasher, Hash};
use std::marker::Model;
use std::mem;

/// How many steps of a call are made at most while the lock is held once.
const MOST_STEPS: usize = 32;

/// Table and desk, and beside them the wakers of the tasks whose calls wait. Nothing is seen of it
/// but that they stand for a sound world.
#[derive(Drop)]
pub(crate) struct Kept<K: Eq + Hash, V, E, S: BuildHasher, P: Fact<K, V>> {
    pub(crate) reach: Reach<K, V, E, S, P>,
    parked: Parked,
}

impl<K: Eq + Hash, V, E, S: BuildHasher, P: Fact<K, V>> Model for Kept<K, V, E, S, P> {
    ghost Value = { Unit {0} };

    ghost view = { λ k. tt };

    ghost invariant = { λ k. IsKept K.eq P.holds (get nat_eq k.reach.ends) k.reach.layers };
}

impl<K: Eq + Hash + Exact, V: Exact, E: Exact, S: BuildHasher + Drop, P: Fact<K, V>> Kept<
    K,
    V,
    E,
    S,
    P,
> {
    ghost use Rattle.futures.specs.Task.{IsArmed, Keeps};
    ghost use Rattle.moka_hist.specs.Plan.{held_by};
    ghost use Rattle.moka_kept.specs.Rests.{Rests};
    ghost use Rattle.moka_kept.specs.Parked.{IsOwn};
    ghost use Rattle.moka_kept.specs.Facts.{facts};
    ghost use Rattle.moka_kept.specs.Meets.{FlowMeets, StopSo};
    ghost use Rattle.moka_kept.specs.Stops.{StopIs, stop_after, stop_of, task_in};
    ghost use Rattle.moka_kept.specs.declared.parked.ParkedTask.{ParkedTask};
    ghost use Rattle.moka_init.specs.FlowPlan.{call_of, tested_in};
    ghost use Rattle.moka_kept.specs.Taking.{Brings};

    /// Nothing is stored. This call number and those before it were given out. It is an error only
    /// where memory is wanting.
    pub(crate) fn starting_after(
        alloc: Global,
        rules: Rules,
        last: u64,
        hasher: S,
    ) -> Result<Self, AllocError>
    where
        S: Clone,
    {
        Ok(Kept {
            reach: Reach::starting_after(alloc, rules, last, hasher)?,
            parked: Parked::new(alloc),
        })
    }

    /// Gives the next call number out. Answers None where the greatest one was given out.
    pub(crate) fn enter(&mut self) -> Option<Number>
        ensures { IfSome result (λ number. 0 < number.call) }
    {
        self.reach.enter()
    }

    /// Moves the clock on to the moment, where that is later.
    pub(crate) fn move_clock(&mut self, moment: u64) {
        self.reach.move_clock(moment);
    }

    /// Tells the end of a notice, if one was heard. The wakers of all that it hands out come to
    /// those in `woken`. Where the notice doesn't run nothing is told.
    pub(crate) fn hear(&mut self, heard: Option<Heard>, woken: &mut ToWake) {
        match heard {
            Some(heard) => self.end_notice(heard, woken),
            None => {}
        }
    }

    // Tells the end of a notice.
    fn end_notice(&mut self, heard: Heard, woken: &mut ToWake) {
        let handed = heard.tell(&mut self.reach);
        self.hand_out(handed, woken);
    }

    /// Makes steps of the flow, at most 32, and none that judges by a replace test whose answer
    /// isn't there. The first goes by what was brought: it takes the answer to its own ask, or
    /// judges by that of its replace test. The wakers of all that the visits hand out come to those
    /// in `woken`; where it waits its task is parked. Where no call carries a record on, it is
    /// forgotten when those were seen that have left. The key is the one that the state of the flow's
    /// call keeps. What it stores is to meet the fact; what a compute or the listener is told does.
    pub(crate) fn go(
        &mut self,
        flow: &mut Flow<K, V, E>,
        key: &Option<K>,
        brought: Brought<V, E>,
        cx: &mut Context<'_>,
        woken: &mut ToWake,
    ) -> Stop<K, V, E>
        requires rests { Rests flow.old }
        requires so { FlowMeets (facts K.eq P.holds) key.now
            (Brings (tested_in (call_of flow.old).plan) brought) flow.old }
        ensures stops { StopIs (facts K.eq P.holds)
            (Brings (tested_in (call_of flow.old).plan) brought)
            flow.old result flow.new }
        ensures so { StopSo (facts K.eq P.holds) result }
        ensures armed { IsWaiting result → IsArmed cx.new }
        ensures own { IsWaiting result → IsOwn (task_in result) flow.new.call cx.new }
        ensures kept { Keeps cx.old cx.new }
    {
        let carried = flow.carries();
        let stop = self.make_steps(flow, key, brought, cx, woken);
        self.reach.settle(carried, flow.carries());
        stop
    }

    // Makes those steps.
    fn make_steps(
        &mut self,
        flow: &mut Flow<K, V, E>,
        key: &Option<K>,
        brought: Brought<V, E>,
        cx: &mut Context<'_>,
        woken: &mut ToWake,
    ) -> Stop<K, V, E>
        requires rests { Rests flow.old }
        requires so { FlowMeets (facts K.eq P.holds) key.now
            (Brings (tested_in (call_of flow.old).plan) brought) flow.old }
        ensures stops { StopIs (facts K.eq P.holds)
            (Brings (tested_in (call_of flow.old).plan) brought)
            flow.old result flow.new }
        ensures so { StopSo (facts K.eq P.holds) result }
        ensures armed { IsWaiting result → IsArmed cx.new }
        ensures own { IsWaiting result → IsOwn (task_in result) flow.new.call cx.new }
        ensures kept { Keeps cx.old cx.new }
    {
        let mut next = brought;
        for _ in 0..MOST_STEPS {
            if is_unasked(flow, &next) {
                return Stop::Going;
            }
            let made = self.one_step(flow, key, mem::replace(&mut next, Brought::Nothing), woken);
            if !goes_on(&made) {
                return self.stop_after(made, flow, cx, woken);
            }
        }
        Stop::Going
    }

    // Makes one step of the flow, which goes by what was brought. It is an error where memory is
    // wanting, or the desk doesn't allow the visit, or has an end for it that is of another kind.
    fn one_step(
        &mut self,
        flow: &mut Flow<K, V, E>,
        key: &Option<K>,
        brought: Brought<V, E>,
        woken: &mut ToWake,
    ) -> Result<Turn<K, V, E>, AllocError>
        requires rests { Rests flow.old }
        requires untested { brought ≡ Brought.Nothing → tested_in (call_of flow.old).plan ≡ None }
        requires so { FlowMeets (facts K.eq P.holds) key.now
            (Brings (tested_in (call_of flow.old).plan) brought) flow.old }
        ensures stops { (task : Option ParkedTask) (kept : Option ℕ)
            → IfSome kept (FindsKept K.eq flow.new)
            → StopIs (facts K.eq P.holds) (Brings (tested_in (call_of flow.old).plan) brought)
            flow.old (stop_after task kept flow.new.call result) flow.new }
        ensures so { (task : Option ParkedTask) (kept : Option ℕ)
            → StopSo (facts K.eq P.holds) (stop_after task kept flow.new.call result) }
    {
        match self
            .reach
            .bring(flow.number(), brought, &mut self.parked, woken)
        {
            Some(takes) => self.reach.step(flow, key, takes, &mut self.parked, woken),
            None => Err(AllocError),
        }
    }

    // How the step of the flow's call stops it. Where it has answered its waker comes to those in
    // `woken`, if it is still parked.
    fn stop_after(
        &mut self,
        made: Result<Turn<K, V, E>, AllocError>,
        flow: &Flow<K, V, E>,
        cx: &mut Context<'_>,
        woken: &mut ToWake,
    ) -> Stop<K, V, E>
        ensures stop { result
            ≡ stop_after (task_in result) (kept_in result) flow.now.call made }
        ensures finds { IfSome (kept_in result) (FindsKept K.eq flow.now) }
        ensures armed { IsWaiting result → IsArmed cx.new }
        ensures own { IsWaiting result → IsOwn (task_in result) flow.now.call cx.new }
        ensures kept { Keeps cx.old cx.new }
    {
        match made {
            Ok(turn) => self.stop_of(turn, flow, cx, woken),
            Err(_) => Stop::Memory,
        }
    }

    // How the turn of the flow's call stops it. Where it waits its task is parked; where it has
    // answered its waker is handed out, if it is still parked.
    fn stop_of(
        &mut self,
        turn: Turn<K, V, E>,
        flow: &Flow<K, V, E>,
        cx: &mut Context<'_>,
        woken: &mut ToWake,
    ) -> Stop<K, V, E>
        ensures stop { result ≡ stop_of (task_in result) (kept_in result) flow.now.call turn }
        ensures finds { IfSome (kept_in result) (FindsKept K.eq flow.now) }
        ensures armed { IsWaiting result → IsArmed cx.new }
        ensures own { IsWaiting result → IsOwn (task_in result) flow.now.call cx.new }
        ensures kept { Keeps cx.old cx.new }
    {
        match turn {
            Turn::Going => Stop::Going,
            Turn::Wait => self.park(flow, cx),
            Turn::Ask(ask) => asking(ask, flow),
            Turn::Answer(answer) => self.answered(answer, flow, woken),
            Turn::Item(_, _) => Stop::Memory,
        }
    }

    // The call has answered: it is parked no longer.
    fn answered(
        &mut self,
        answer: Answer<K, V, E>,
        flow: &Flow<K, V, E>,
        woken: &mut ToWake,
    ) -> Stop<K, V, E>
        ensures stop { result ≡ Stop.Answers answer }
        ensures answers { IsWaiting result → ⊥ }
        ensures finds { IfSome (kept_in result) (FindsKept K.eq flow.now) }
    {
        self.parked.hand_one(flow.number(), woken);
        Stop::Answers(answer)
    }

    // Parks the task of the call, and tells which notice keeps the lock that it waits for, if one
    // does.
    fn park(&mut self, flow: &Flow<K, V, E>, cx: &mut Context<'_>) -> Stop<K, V, E>
        ensures stop { result ≡ Stop.Waits (task_in result) (kept_in result) }
        ensures finds { IfSome (kept_in result) (FindsKept K.eq flow.now) }
        ensures armed { IsArmed cx.new }
        ensures own { IsOwn (task_in result) flow.now.call cx.new }
        ensures kept { Keeps cx.old cx.new }
    {
        let kept = self.reach.keeper(flow);
        Stop::Waits(self.parked.park(flow, cx), kept)
    }

    // Hands out the wakers of the calls that a visit handed out, if it did.
    fn hand_out(&mut self, handed: Option<HandedOut>, woken: &mut ToWake) {
        match handed {
            Some(handed) => self.parked.hand_out(handed, woken),
            None => {}
        }
    }

    /// Lets the call of the flow leave, with the write that it holds, where the desk allows it. The
    /// wakers of all that it hands out come to those in `woken`. It takes no memory.
    pub(crate) fn leave(&mut self, flow: &Flow<K, V, E>, woken: &mut ToWake) -> Left
        ensures call { result.call ≡ flow.now.call }
        ensures held { result.held ≡ held_by (call_of flow.now).plan }
    {
        self.parked.hand_one(flow.number(), woken);
        let (left, handed) = self.reach.leave(flow);
        self.hand_out(handed, woken);
        self.reach.settle(flow.carries(), false);
        left
    }

    /// Invalidates all records that were written before the clock, once that has moved on to the
    /// moment. It takes no record out, and no memory.
    pub(crate) fn invalidate_all(&mut self, moment: u64) {
        self.reach.move_clock(moment);
        self.reach.invalidate_all();
    }
}

// How the flow's call is stopped that asks this.
fn asking<K: Drop, V: Drop, E>(ask: Ask<K, V>, flow: &Flow<K, V, E>) -> Stop<K, V, E>
    ensures stop { result ≡ stop_asking flow.now.call ask }
    ensures asks { IsWaiting result → ⊥ }
    ensures finds { (eq : K → K → Bool) → IfSome (kept_in result) (FindsKept eq flow.now) }
{
    match ask {
        Ask::Init => Stop::Asks(OwnAsk::Init),
        Ask::Compute(found) => Stop::Asks(OwnAsk::Compute(found)),
        Ask::Listener { key, value, cause } => {
            Stop::Due(DueNotice::of(flow.number(), key, value, cause))
        }
    }
}
