//! Of which keys loads are that have ended with a value, for the calls that wait for them.
ghost use Rattle.std.specs.Prelude.{◌≡◌, ◌==◌, ℕ, None, Some, OnErr, OnOk, cond, nat_eq, true};
ghost use Rattle.std.specs.Bool.{OnTrue};
ghost use Rattle.std.specs.HashMap.{get};
ghost use Rattle.std.specs.Option.{option_map_or};
ghost use Rattle.moka_desk.specs.StandsFor.{StandsFor};
ghost use Rattle.moka_hist.specs.State.{DeskPart};
ghost use Rattle.moka_init.specs.FlowPlan.{call_of, key_read};
ghost use Rattle.moka_init.specs.Grounds.{access_at};
ghost use Rattle.moka_kept.specs.Facts.{EndIsNoted, MakesSo, ends_in, facts};
ghost use Rattle.moka_hist.specs.declared.events.Told.{Told};
ghost use Rattle.moka_kept.specs.Kept.{IsKept, IsToldTo};

use crate::ground::Reach;
use moka_facts::Fact;
use moka_init::Flow;
use moka_needs::{Ending, Need};
use moka_room::map_room;
use moka_values::Exact;
use std::alloc::AllocError;
use std::collections::HashMap;
use std::hash::{BuildHasher, Hash};

impl<K: Eq + Hash + Exact, V: Exact, E: Exact, S: BuildHasher + Drop, P: Fact<K, V>> Reach<
    K,
    V,
    E,
    S,
    P,
> {
    /// Notes the key that the state of the flow's call keeps, where the next visit ends its load,
    /// some call waits for that, and `ends` says that it may end with a value. It is an error where
    /// memory is wanting, or the state keeps no key, or an end of the call is kept already: no run
    /// is known that comes to the last two.
    pub(crate) fn note_end(
        &mut self,
        flow: &Flow<K, V, E>,
        key: &Option<K>,
        ends: bool,
    ) -> Result<(), AllocError>
        requires kept { IsKept K.eq P.holds (get nat_eq self.old.ends) self.old.layers }
        requires so { MakesSo (facts K.eq P.holds) key.now (access_at flow.now) }
        ensures kept { IsKept K.eq P.holds (get nat_eq self.new.ends) self.new.layers }
        ensures layers { self.new.layers ≡ self.old.layers }
        // What a call was told is there still.
        ensures told { (n : ℕ) (told : Told V E)
            → IsToldTo K.eq P.holds (get nat_eq self.old.ends) self.old.layers n told
            → IsToldTo K.eq P.holds (get nat_eq self.new.ends) self.new.layers n told }
        ensures noted { OnOk result (ends ≡ true → (w : DeskPart K V E)
            → StandsFor K.eq self.new.layers.desk w
            → EndIsNoted P.holds (get nat_eq self.new.ends) w (access_at flow.now)) }
    {
        let call = flow.number();
        if !ends {
            return Ok(());
        }
        if !self.layers.desk.is_awaited(call) {
            return Ok(());
        }
        match key {
            Some(key) => self.note(call, key),
            None => Err(AllocError),
        }
    }

    // Notes that the load of this call is of this key, where no end of it is kept.
    fn note(&mut self, call: u64, key: &K) -> Result<(), AllocError>
        requires { IsKept K.eq P.holds (get nat_eq self.old.ends) self.old.layers }
        ensures kept { IsKept K.eq P.holds (get nat_eq self.new.ends) self.new.layers }
        ensures layers { self.new.layers ≡ self.old.layers }
        // What a call was told is there still.
        ensures told { (n : ℕ) (told : Told V E)
            → IsToldTo K.eq P.holds (get nat_eq self.old.ends) self.old.layers n told
            → IsToldTo K.eq P.holds (get nat_eq self.new.ends) self.new.layers n told }
        ensures noted { OnOk result (get nat_eq self.new.ends call ≡ Some key.now) }
    {
        if self.layers.desk.keeps_end(call) {
            return Err(AllocError);
        }
        let noted = key.clone()?;
        match put_noted(&mut self.ends, call, noted) {
            Ok(()) => Ok(()),
            Err(e) => Err(e),
        }
    }

    /// Forgets the key that was noted of the owner, if it is one, once no end of that is kept.
    pub(crate) fn forget_end(&mut self, owner: Option<u64>)
        requires { IsKept K.eq P.holds (get nat_eq self.old.ends) self.old.layers }
        ensures kept { IsKept K.eq P.holds (get nat_eq self.new.ends) self.new.layers }
        ensures layers { self.new.layers ≡ self.old.layers }
    {
        if let Some(owner) = owner {
            self.forget(owner);
        }
    }

    // Forgets what was noted of the owner, where no end of it is kept.
    fn forget(&mut self, owner: u64)
        requires { IsKept K.eq P.holds (get nat_eq self.old.ends) self.old.layers }
        ensures kept { IsKept K.eq P.holds (get nat_eq self.new.ends) self.new.layers }
        ensures layers { self.new.layers ≡ self.old.layers }
    {
        if !self.layers.desk.keeps_end(owner) {
            take_noted(&mut self.ends, owner);
        }
    }

    /// The owner whose end the flow's next visit reads, if it reads one of a load.
    pub(crate) fn owner_read(&self, flow: &Flow<K, V, E>) -> Option<u64> {
        match flow.key_read() {
            Some(_) => self.layers.desk.waits_for(flow.number()),
            None => None,
        }
    }

    /// Whether an end that the flow's next visit reads, if it reads one of a load, is one of a load
    /// of a key that equals the one that the flow seeks, as far as a key of it is noted.
    pub(crate) fn reads_own(&self, flow: &Flow<K, V, E>) -> bool
        ensures { OnTrue result ((w : DeskPart K V E) → StandsFor K.eq self.now.layers.desk w
            → (own noted : K) (owner : ℕ) → key_read (call_of flow.now).plan ≡ Some own
            → w.joined flow.now.call ≡ Some owner → get nat_eq self.now.ends owner ≡ Some noted
            → K.eq noted own ≡ true) }
    {
        match flow.key_read() {
            Some(own) => self.is_noted_as(self.layers.desk.waits_for(flow.number()), own),
            None => true,
        }
    }

    // Whether this key equals the one that is noted of the owner, if one is.
    fn is_noted_as(&self, owner: Option<u64>, own: &K) -> bool
        ensures { OnTrue result ((noted : K) (o : ℕ) → owner ≡ Some o
            → get nat_eq self.now.ends o ≡ Some noted → K.eq noted own.now ≡ true) }
    {
        match owner {
            Some(load) => self.equals_noted(load, own),
            None => true,
        }
    }

    // The same of an owner.
    fn equals_noted(&self, owner: u64, own: &K) -> bool
        ensures { result ≡ option_map_or (λ noted. K.eq noted own.now)
            (get nat_eq self.now.ends owner) true }
    {
        match self.ends.get(&owner) {
            Some(noted) => *noted == *own,
            None => true,
        }
    }
}

/// Whether a visit that needs this ends a load with a value.
pub(crate) fn ends_value<K>(next: &Option<Need<K>>) -> bool
    ensures { result ≡ ends_in next.now }
{
    match next {
        Some(Need::Settle { with }) => matches!(with, Ending::Ready),
        _ => false,
    }
}

// The key is noted of this call from then on. Without memory nothing is.
fn put_noted<K: Drop>(ends: &mut HashMap<u64, K>, call: u64, key: K) -> Result<(), AllocError>
    ensures ok { OnOk result ((n : ℕ) → get nat_eq ends.new n
        ≡ cond (call == n) (Some key) (get nat_eq ends.old n)) }
    ensures err { OnErr result ((n : ℕ) → get nat_eq ends.new n ≡ get nat_eq ends.old n) }
{
    map_room::reserve(ends, 1)?;
    ends.insert(call, key)?;
    Ok(())
}

// Nothing is noted of this owner from then on.
fn take_noted<K: Drop>(ends: &mut HashMap<u64, K>, owner: u64)
    ensures { (n : ℕ) → get nat_eq ends.new n
        ≡ cond (owner == n) None (get nat_eq ends.old n) }
{
    let _ = ends.remove(&owner);
}
