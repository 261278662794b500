//! The calls that carry a record from one hold of the lock to the next, and what is forgotten where
//! none does.
ghost use Rattle.std.specs.Prelude.{◌≡◌, ◌<◌, ◌+◌, ◌-◌, nat_eq, true, false};
ghost use Rattle.std.specs.HashMap.{get};
ghost use Rattle.moka_desk.specs.Forgetting.{forgotten, has_left};
ghost use Rattle.moka_desk.specs.StandsFor.{StandsFor};
ghost use Rattle.moka_hist.specs.State.{DeskPart};
ghost use Rattle.moka_kept.specs.Kept.{IsKept};

use crate::ground::Reach;
use moka_facts::Fact;
use moka_values::Exact;
use std::hash::{BuildHasher, Hash};

impl<K: Eq + Hash + Exact, V: Exact, E: Exact, S: BuildHasher + Drop, P: Fact<K, V>> Reach<
    K,
    V,
    E,
    S,
    P,
> {
    /// Ends a hold of a call that carried a record as it began (`before`), or not, and carries one
    /// now (`after`), or not. Where no call carries one, the desk forgets when those records were
    /// seen that have left; else it forgets nothing, since a call judges what it carries by that
    /// moment.
    pub(crate) fn settle(&mut self, before: bool, after: bool)
        requires { IsKept K.eq P.holds (get nat_eq self.old.ends) self.old.layers }
        ensures kept { IsKept K.eq P.holds (get nat_eq self.new.ends) self.new.layers }
        // How many calls carry one.
        ensures comes { before ≡ false → after ≡ true → self.old.carried < 18446744073709551615
            → self.new.carried ≡ self.old.carried + 1 }
        ensures goes { before ≡ true → after ≡ false → self.new.carried ≡ self.old.carried - 1 }
        ensures stays { before ≡ after → self.new.carried ≡ self.old.carried }
        // What is forgotten.
        ensures carried { 0 < self.new.carried → self.new.layers ≡ self.old.layers }
        ensures forgets { self.new.carried ≡ 0 → (w : DeskPart K V E)
            → StandsFor K.eq self.old.layers.desk w → StandsFor K.eq self.new.layers.desk
            (forgotten (has_left self.old.layers.desk.writes) w) }
        ensures table { self.new.layers.table ≡ self.old.layers.table }
    {
        self.carried = carried_after(self.carried, before, after);
        if self.carried == 0 {
            self.layers.desk.forget_left();
        }
    }
}

// How many calls carry a record, once one that did, or not, does so or not.
fn carried_after(carried: u64, before: bool, after: bool) -> u64
    ensures comes { before ≡ false → after ≡ true → carried < 18446744073709551615
        → result ≡ carried + 1 }
    ensures goes { before ≡ true → after ≡ false → result ≡ carried - 1 }
    ensures stays { before ≡ after → result ≡ carried }
{
    match (before, after) {
        (false, true) => carried.saturating_add(1),
        (true, false) => carried.saturating_sub(1),
        _ => carried,
    }
}
