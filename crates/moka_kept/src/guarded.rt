//! What lies under the lock of a cache, behind that lock.
ghost use Rattle.std.specs.Prelude.{◌≡◌, ◌<◌, ◌+◌, ◌^◌, ◌++◌, ℕ, [], length, IfOk, true};
ghost use Rattle.futures.specs.Task.{IsArmed, Keeps};
ghost use Rattle.moka_hist.specs.Plan.{held_by};
ghost use Rattle.moka_hist.specs.Run.{fresh_call};
ghost use Rattle.moka_init.specs.FlowPlan.{call_of, tested_in};
ghost use Rattle.moka_kept.specs.Entering.{EnteredIs, IfGoes};
ghost use Rattle.moka_kept.specs.Facts.{facts};
ghost use Rattle.moka_kept.specs.Meets.{CallMeets, FlowMeets, StopSo};
ghost use Rattle.moka_kept.specs.Parked.{IsOwn};
ghost use Rattle.moka_kept.specs.Rests.{Rests};
ghost use Rattle.moka_kept.specs.Stops.{IsWaiting, StopIs, task_in};
ghost use Rattle.moka_kept.specs.Taking.{Brings, NoAnswer};

use crate::brought::Brought;
use crate::entered::Entered;
use crate::heard::Heard;
use crate::leaving::Left;
use crate::live::Live;
use crate::locked::Locked;
use crate::parked::Wakers;
use crate::stop::Stop;
use futures::task::Context;
use moka_facts::Fact;
use moka_hist::{Rules, Start};
use moka_values::Exact;
use std::alloc::{AllocError, Global};
use std::collections::LinkedList;
use std::hash::{BuildHasher, Hash};
use std::sync::Wait;

/// The wakers that a hold of the lock has handed out. It has no `Drop`: `wake` alone lets them go,
/// which no function reaches that has the lock (`Locked`), since it is private to this file, as is
/// what makes one.
pub(crate) struct ToWake {
    wakers: Wakers,
}

impl ToWake {
    // None was handed out.
    fn new(alloc: Global) -> ToWake
        ensures { result.wakers ≡ [] }
    {
        ToWake {
            wakers: LinkedList::new(alloc),
        }
    }

    /// Takes these wakers, after those that it has; there is room for fewer than 2^63.
    pub(crate) fn take(&mut self, wakers: &mut Wakers)
        ensures { length self.old.wakers + length wakers.old < 2 ^ 63
            → self.new.wakers ≡ self.old.wakers ++ wakers.old }
    {
        let _ = self.wakers.append(wakers);
    }

    // Wakes the tasks.
    fn wake(self) {
        let ToWake { wakers } = self;
        drop(wakers);
    }
}

/// What a cache keeps, behind its lock. Each call takes the lock once, and has freed it when it
/// returns. It lends nothing of what lies there, so that no listener is polled under the lock, nor
/// who answers the ask of a call.
#[derive(Drop)]
pub struct Guarded<K: Eq + Hash, V, E, S: BuildHasher, P: Fact<K, V>> {
    alloc: Global,
    /// The rules that it was made with.
    pub rules: Rules,
    locked: Locked<K, V, E, S, P>,
}

impl<K: Eq + Hash + Exact, V: Exact, E: Exact, S: BuildHasher + Drop, P: Fact<K, V>> Guarded<
    K,
    V,
    E,
    S,
    P,
> {
    /// Makes what an empty cache keeps, where this call number and those before it were given out.
    /// Keys are hashed by clones of this hasher. It is an error only where memory is wanting.
    pub fn starting_after(
        alloc: Global,
        rules: Rules,
        last: u64,
        hasher: S,
    ) -> Result<Self, AllocError>
    where
        S: Clone,
        ensures { IfOk result (λ guarded. guarded.rules ≡ rules) }
    {
        let locked = Locked::starting_after(alloc, rules, last, hasher)?;
        Ok(Guarded {
            alloc,
            rules,
            locked,
        })
    }

    /// Begins the call of this start, and makes its first steps, in one hold of the lock: moves the
    /// clock on to the moment, where that is later, gives the next call number out, and makes at most
    /// 32 steps, up to where the call answers, waits, asks, or judges a record by a replace test. The
    /// first number is 1; no clause speaks of two calls, so that one comes after the other is said of
    /// the desk alone. Where the greatest number was given out it makes none. Once the lock is free it
    /// wakes all that the visits handed out. Where the call waits its task is parked. What was done
    /// stands, where memory is wanting too.
    ///
    /// The key is the one that the state of the call keeps, if it keeps one. Whatever number the call
    /// is given, what it stores is to meet the fact, and so is a value by which it ends its load, for
    /// that key; what a compute or the listener is told meets it then.
    pub fn begin<R: Wait>(
        &self,
        rt: &R,
        start: Start<K, V>,
        key: &Option<K>,
        cx: &mut Context<'_>,
        moment: u64,
    ) -> Entered<K, V, E>
        requires so { (n : ℕ) → CallMeets {E = E} (facts K.eq P.holds) key.now NoAnswer n
            (fresh_call 1 self.now.rules start) }
        ensures begins { EnteredIs (facts K.eq P.holds) NoAnswer
            (fresh_call 1 self.now.rules start) result }
        ensures so { IfGoes result (λ flow stop. StopSo (facts K.eq P.holds) stop) }
        ensures armed { IfGoes result (λ flow stop. IsWaiting stop → IsArmed cx.new) }
        ensures own { IfGoes result (λ flow stop. IsWaiting stop
            → IsOwn (task_in stop) flow.call cx.new) }
        ensures kept { Keeps cx.old cx.new }
    {
        let mut woken = ToWake::new(self.alloc);
        let entered = self
            .locked
            .begin(rt, start, self.rules, key, cx, moment, &mut woken);
        woken.wake();
        entered
    }

    /// Makes steps of the flow in one hold of the lock, at most 32, and none that judges by a
    /// replace test whose answer isn't there. The first goes by what was brought: it takes the
    /// answer to the call's own ask, or judges by that of its replace test. Before them the clock
    /// moves on to the moment, where that is later, and the end of a notice is told that was heard.
    /// Once the lock is free it wakes all that the visits and that end handed out. Where the call
    /// waits its task is parked. What was done stands, where memory is wanting too.
    ///
    /// The key is the one that the state of the call keeps, if it keeps one. What the call stores is
    /// to meet the fact, and so is a value by which it ends its load, for that key; what a compute or
    /// the listener is told meets it then.
    pub fn hold<R: Wait>(
        &self,
        rt: &R,
        flow: &mut Live<K, V, E>,
        key: &Option<K>,
        brought: Brought<V, E>,
        heard: Option<Heard>,
        cx: &mut Context<'_>,
        moment: u64,
    ) -> Stop<K, V, E>
        requires rests { Rests flow.old }
        requires so { FlowMeets (facts K.eq P.holds) key.now
            (Brings (tested_in (call_of flow.old).plan) brought) flow.old }
        ensures stops { StopIs (facts K.eq P.holds)
            (Brings (tested_in (call_of flow.old).plan) brought)
            flow.old result flow.new }
        ensures so { StopSo (facts K.eq P.holds) result }
        ensures armed { IsWaiting result → IsArmed cx.new }
        ensures own { IsWaiting result → IsOwn (task_in result) flow.new.call cx.new }
        ensures kept { Keeps cx.old cx.new }
    {
        let mut woken = ToWake::new(self.alloc);
        let stop = self
            .locked
            .hold(rt, flow, key, brought, heard, cx, moment, &mut woken);
        woken.wake();
        stop
    }

    /// Lets the call of the flow leave, with the write that it holds, where the desk allows it.
    /// Once the lock is free it wakes those that wait for it. It takes no memory.
    pub fn leave<R: Wait>(&self, rt: &R, flow: Live<K, V, E>) -> Left
        ensures call { result.call ≡ flow.call }
        ensures held { result.held ≡ held_by (call_of flow).plan }
    {
        let mut woken = ToWake::new(self.alloc);
        let left = self.locked.leave(rt, flow.flow(), &mut woken);
        woken.wake();
        flow.let_go(&left);
        left
    }

    /// Whether the key has a record that is visible, once the clock has moved on to the moment. It
    /// is no access to the record. An error comes where memory is wanting for a copy of the key or
    /// of its record, and nothing but the clock has changed then.
    pub fn contains_key<R: Wait>(&self, rt: &R, key: &K, moment: u64) -> Result<bool, AllocError>
        ensures { IfOk result (λ there. there ≡ true → (value : V) × P.holds key.now value) }
    {
        self.locked.contains_key(rt, key, moment)
    }

    /// Moves the clock on to the moment, where that is later, and invalidates all records that were
    /// written before the clock, in one hold of the lock. Records stay stored. It takes no memory.
    pub fn invalidate_all<R: Wait>(&self, rt: &R, moment: u64) {
        self.locked.invalidate_all(rt, moment);
    }

    /// How many records the last turn of maintenance counted.
    pub fn entry_count<R: Wait>(&self, rt: &R) -> u64 {
        self.locked.entry_count(rt)
    }
}
