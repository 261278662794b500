//! The lock of a cache. What takes it can neither make what those that are to be woken lie in, nor
//! let it go.
ghost use Rattle.std.specs.Prelude.{◌≡◌, ℕ, IfOk, true};
ghost use Rattle.futures.specs.Task.{IsArmed, Keeps};
ghost use Rattle.moka_hist.specs.Plan.{held_by};
ghost use Rattle.moka_hist.specs.Run.{fresh_call};
ghost use Rattle.moka_init.specs.FlowPlan.{call_of, tested_in};
ghost use Rattle.moka_kept.specs.Entering.{EnteredIs, IfGoes};
ghost use Rattle.moka_kept.specs.Facts.{facts};
ghost use Rattle.moka_kept.specs.Meets.{CallMeets, FlowMeets, StopSo};
ghost use Rattle.moka_kept.specs.Parked.{IsOwn};
ghost use Rattle.moka_kept.specs.Rests.{Rests};
ghost use Rattle.moka_kept.specs.Stops.{IsWaiting, StopIs, task_in};
ghost use Rattle.moka_kept.specs.Taking.{Brings, NoAnswer};

use crate::brought::Brought;
use crate::entered::Entered;
use crate::guarded::ToWake;
use crate::heard::Heard;
use crate::kept::Kept;
use crate::leaving::Left;
use crate::live::Live;
use crate::stop::Stop;
use futures::task::Context;
use moka_facts::Fact;
use moka_hist::{Rules, Start};
use moka_init::Flow;
use moka_values::Exact;
use std::alloc::{AllocError, Global};
use std::hash::{BuildHasher, Hash};
use std::sync::{Mutex, Wait};

/// What lies under the lock, with that lock. Each call takes it once, and has freed it when it
/// returns.
#[derive(Drop)]
pub(crate) struct Locked<K: Eq + Hash, V, E, S: BuildHasher, P: Fact<K, V>> {
    kept: Mutex<Kept<K, V, E, S, P>>,
}

impl<K: Eq + Hash + Exact, V: Exact, E: Exact, S: BuildHasher + Drop, P: Fact<K, V>> Locked<
    K,
    V,
    E,
    S,
    P,
> {
    /// Makes what an empty cache keeps, as `Kept::starting_after` does.
    pub(crate) fn starting_after(
        alloc: Global,
        rules: Rules,
        last: u64,
        hasher: S,
    ) -> Result<Self, AllocError>
    where
        S: Clone,
    {
        let kept = Mutex::new(Kept::starting_after(alloc, rules, last, hasher)?);
        Ok(Locked { kept })
    }

    /// Begins a call and makes its first steps in one hold, as `Kept::begin` does, once the clock was
    /// moved on. The wakers of all that are handed out come to those in `woken`.
    pub(crate) fn begin<R: Wait>(
        &self,
        rt: &R,
        start: Start<K, V>,
        rules: Rules,
        key: &Option<K>,
        cx: &mut Context<'_>,
        moment: u64,
        woken: &mut ToWake,
    ) -> Entered<K, V, E>
        requires so { (n : ℕ) → CallMeets {E = E} (facts K.eq P.holds) key.now NoAnswer n
            (fresh_call 1 rules start) }
        ensures begins { EnteredIs (facts K.eq P.holds) NoAnswer (fresh_call 1 rules start)
            result }
        ensures so { IfGoes result (λ flow stop. StopSo (facts K.eq P.holds) stop) }
        ensures armed { IfGoes result (λ flow stop. IsWaiting stop → IsArmed cx.new) }
        ensures own { IfGoes result (λ flow stop. IsWaiting stop
            → IsOwn (task_in stop) flow.call cx.new) }
        ensures kept { Keeps cx.old cx.new }
    {
        let mut guard = self.kept.lock(rt);
        let kept = &mut *guard;
        kept.move_clock(moment);
        kept.begin(start, rules, key, cx, woken)
    }

    /// Makes steps of the flow in one hold, as `Kept::go` does, once the clock was moved on and the
    /// end of a notice told. The wakers of all that are handed out come to those in `woken`.
    pub(crate) fn hold<R: Wait>(
        &self,
        rt: &R,
        flow: &mut Live<K, V, E>,
        key: &Option<K>,
        brought: Brought<V, E>,
        heard: Option<Heard>,
        cx: &mut Context<'_>,
        moment: u64,
        woken: &mut ToWake,
    ) -> Stop<K, V, E>
        requires rests { Rests flow.old }
        requires so { FlowMeets (facts K.eq P.holds) key.now
            (Brings (tested_in (call_of flow.old).plan) brought) flow.old }
        ensures stops { StopIs (facts K.eq P.holds)
            (Brings (tested_in (call_of flow.old).plan) brought)
            flow.old result flow.new }
        ensures so { StopSo (facts K.eq P.holds) result }
        ensures armed { IsWaiting result → IsArmed cx.new }
        ensures own { IsWaiting result → IsOwn (task_in result) flow.new.call cx.new }
        ensures kept { Keeps cx.old cx.new }
    {
        let mut guard = self.kept.lock(rt);
        let kept = &mut *guard;
        kept.move_clock(moment);
        kept.hear(heard, woken);
        flow.go(kept, key, brought, cx, woken)
    }

    /// Lets the call of the flow leave. The wakers of all that it hands out come to those in `woken`.
    pub(crate) fn leave<R: Wait>(&self, rt: &R, flow: &Flow<K, V, E>, woken: &mut ToWake) -> Left
        ensures call { result.call ≡ flow.now.call }
        ensures held { result.held ≡ held_by (call_of flow.now).plan }
    {
        let mut guard = self.kept.lock(rt);
        let kept = &mut *guard;
        kept.leave(flow, woken)
    }

    /// Whether the key has a record that is visible, as `Kept::contains_key` tells.
    pub(crate) fn contains_key<R: Wait>(
        &self,
        rt: &R,
        key: &K,
        moment: u64,
    ) -> Result<bool, AllocError>
        ensures { IfOk result (λ there. there ≡ true → (value : V) × P.holds key.now value) }
    {
        let mut guard = self.kept.lock(rt);
        let kept = &mut *guard;
        kept.contains_key(key, moment)
    }

    /// Invalidates all records, as `Kept::invalidate_all` does.
    pub(crate) fn invalidate_all<R: Wait>(&self, rt: &R, moment: u64) {
        let mut guard = self.kept.lock(rt);
        let kept = &mut *guard;
        kept.invalidate_all(moment);
    }

    /// How many records the last turn of maintenance counted.
    pub(crate) fn entry_count<R: Wait>(&self, rt: &R) -> u64 {
        let mut guard = self.kept.lock(rt);
        let kept = &mut *guard;
        kept.entry_count()
    }
}
