//! How a call leaves that has not answered.
ghost use Rattle.std.specs.Prelude.{◌≡◌, IfNone, OnSome, Some, nat_eq};
ghost use Rattle.std.specs.HashMap.{get};
ghost use Rattle.moka_desk.specs.StandsFor.{StandsFor};
ghost use Rattle.moka_hist.specs.Conditions.{MayLeave};
ghost use Rattle.moka_hist.specs.Dropping.{left};
ghost use Rattle.moka_hist.specs.Plan.{held_by};
ghost use Rattle.moka_hist.specs.State.{DeskPart};
ghost use Rattle.moka_init.specs.FlowPlan.{call_of};
ghost use Rattle.moka_kept.specs.Kept.{IsKept};

use crate::ground::Reach;
use crate::parked::HandedOut;
use moka_facts::Fact;
use moka_hist::Write;
use moka_init::Flow;
use moka_values::Exact;
use std::hash::{BuildHasher, Hash};

/// The call of this number has left, with this write, if it held one: the desk made the visit by
/// which it does, where that allows it. `Reach::leave` alone makes one, with what the call's flow
/// held.
#[derive(Drop)]
pub struct Left {
    call: u64,
    held: Option<Write>,
}

impl<K: Eq + Hash + Exact, V: Exact, E: Exact, S: BuildHasher + Drop, P: Fact<K, V>> Reach<
    K,
    V,
    E,
    S,
    P,
> {
    /// Lets the call of the flow leave, with the write that it holds, where the desk allows it, and
    /// gives those that it hands out. It takes no memory.
    pub(crate) fn leave(&mut self, flow: &Flow<K, V, E>) -> (Left, Option<HandedOut>)
        requires { IsKept K.eq P.holds (get nat_eq self.old.ends) self.old.layers }
        ensures kept { IsKept K.eq P.holds (get nat_eq self.new.ends) self.new.layers }
        // What the call holds is left, exactly where the desk allows it.
        ensures left { OnSome result.1 ((w : DeskPart K V E)
            → StandsFor K.eq self.old.layers.desk w → StandsFor K.eq self.new.layers.desk
            (left w flow.now.call (held_by (call_of flow.now).plan))) }
        ensures refused { IfNone result.1 ((w : DeskPart K V E)
            → StandsFor K.eq self.old.layers.desk w
            → MayLeave w flow.now.call (held_by (call_of flow.now).plan) → ⊥) }
        ensures call { result.0.call ≡ flow.now.call }
        ensures held { result.0.held ≡ held_by (call_of flow.now).plan }
    {
        let call = flow.number();
        let held = flow.held();
        match self.layers.desk.may_leave(call, held) {
            true => (Left { call, held }, Some(self.leave_allowed(call, held))),
            false => (Left { call, held }, None),
        }
    }

    // Lets the call leave, which the desk allows, and forgets of which key an owner is whose end
    // nobody has still to read.
    fn leave_allowed(&mut self, call: u64, held: Option<Write>) -> HandedOut
        requires kept { IsKept K.eq P.holds (get nat_eq self.old.ends) self.old.layers }
        requires may { (w : DeskPart K V E) → StandsFor K.eq self.old.layers.desk w
            → MayLeave w call held }
        ensures kept { IsKept K.eq P.holds (get nat_eq self.new.ends) self.new.layers }
        ensures left { (w : DeskPart K V E) → StandsFor K.eq self.old.layers.desk w
            → StandsFor K.eq self.new.layers.desk (left w call held) }
    {
        moka_laws::leaving_keeps_sound::<K, V, E>();
        let owner = self.layers.desk.waits_for(call);
        let handed = HandedOut::of(self.layers.desk.leave(call, held));
        self.forget_end(owner);
        self.forget_end(Some(call));
        handed
    }
}
