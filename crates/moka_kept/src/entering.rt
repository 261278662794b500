//! The first hold of the lock: a call is given its number, and makes its first steps.
ghost use Rattle.std.specs.Prelude.{◌≡◌, ◌<◌, ℕ};
ghost use Rattle.futures.specs.Task.{IsArmed, Keeps};
ghost use Rattle.moka_hist.specs.Run.{fresh_call};
ghost use Rattle.moka_kept.specs.Entering.{EnteredIs, IfGoes};
ghost use Rattle.moka_kept.specs.Facts.{facts};
ghost use Rattle.moka_kept.specs.Meets.{CallMeets, StopSo};
ghost use Rattle.moka_kept.specs.Parked.{IsOwn};
ghost use Rattle.moka_kept.specs.Stops.{IsWaiting, task_in};
ghost use Rattle.moka_kept.specs.Taking.{NoAnswer};

use crate::brought::Brought;
use crate::entered::Entered;
use crate::guarded::ToWake;
use crate::kept::Kept;
use crate::number::Number;
use futures::task::Context;
use moka_facts::Fact;
use moka_hist::{Rules, Start};
use moka_values::Exact;
use std::hash::{BuildHasher, Hash};

impl<K: Eq + Hash + Exact, V: Exact, E: Exact, S: BuildHasher + Drop, P: Fact<K, V>> Kept<
    K,
    V,
    E,
    S,
    P,
> {
    /// Gives the call of this start the next number, and makes its first steps, as `go` does. Where
    /// the greatest number was given out it makes none.
    pub(crate) fn begin(
        &mut self,
        start: Start<K, V>,
        rules: Rules,
        key: &Option<K>,
        cx: &mut Context<'_>,
        woken: &mut ToWake,
    ) -> Entered<K, V, E>
        requires so { (n : ℕ) → CallMeets {E = E} (facts K.eq P.holds) key.now NoAnswer n
            (fresh_call 1 rules start) }
        ensures begins { EnteredIs (facts K.eq P.holds) NoAnswer (fresh_call 1 rules start)
            result }
        ensures so { IfGoes result (λ flow stop. StopSo (facts K.eq P.holds) stop) }
        ensures armed { IfGoes result (λ flow stop. IsWaiting stop → IsArmed cx.new) }
        ensures own { IfGoes result (λ flow stop. IsWaiting stop
            → IsOwn (task_in stop) flow.call cx.new) }
        ensures kept { Keeps cx.old cx.new }
    {
        match self.enter() {
            Some(number) => self.first(number, start, rules, key, cx, woken),
            None => {
                drop(start);
                Entered::Spent
            }
        }
    }

    // Makes the flow of the call of this number, and its first steps.
    #[inline(always)]
    fn first(
        &mut self,
        number: Number,
        start: Start<K, V>,
        rules: Rules,
        key: &Option<K>,
        cx: &mut Context<'_>,
        woken: &mut ToWake,
    ) -> Entered<K, V, E>
        requires first { 0 < number.call }
        requires so { (n : ℕ) → CallMeets {E = E} (facts K.eq P.holds) key.now NoAnswer n
            (fresh_call 1 rules start) }
        ensures begins { EnteredIs (facts K.eq P.holds) NoAnswer (fresh_call 1 rules start)
            result }
        ensures so { IfGoes result (λ flow stop. StopSo (facts K.eq P.holds) stop) }
        ensures armed { IfGoes result (λ flow stop. IsWaiting stop → IsArmed cx.new) }
        ensures own { IfGoes result (λ flow stop. IsWaiting stop
            → IsOwn (task_in stop) flow.call cx.new) }
        ensures kept { Keeps cx.old cx.new }
    {
        let mut flow = number.begin(start, rules);
        let stop = flow.go(self, key, Brought::Nothing, cx, woken);
        Entered::of(flow, stop)
    }
}
