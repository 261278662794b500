//! Table and desk, as a poll reaches them under the lock.
ghost use Rattle.std.specs.Prelude.{◌≡◌, ℕ, List, Some, None, cond, false};
ghost use Rattle.std.specs.Prelude.{IfNone, IfOk, IfSome, OnErr, nat_eq};
ghost use Rattle.std.specs.HashMap.{get};
ghost use Rattle.std.proofs.Common.{◌∙◌, refl};
ghost use Rattle.moka_layers.specs.Counted.{counted};
ghost use Rattle.moka_sync.specs.Waiting.{waits};
ghost use Rattle.moka_kept.specs.Kept.{IsKept, ReachIs, MayReach, in_hand};
ghost use Rattle.moka_kept.specs.Parked.{is_parked};

use crate::guarded::ToWake;
use crate::in_hand::InHand;
use crate::parked::{HandedOut, Parked};
use moka_facts::Fact;
use moka_hist::{Got, IdList, Visit, Want};
use moka_init::{Alone, Ground};
use moka_layers::Layers;
use moka_sync::CallList;
use moka_table::{PlainCall, PlainTable};
use moka_values::Exact;
use std::alloc::{AllocError, Global};
use std::collections::HashMap;
use std::hash::{BuildHasher, Hash};
use std::marker::PhantomData;

/// Table and desk of a cache; of which key each load is that has ended with a value, as long as some
/// call has still to read that; the calls that the last visit handed out, if it is one that does; and
/// how many calls carry a record from one hold of the lock to the next. Each access to this table
/// decides, so no operation stays begun.
#[derive(Drop)]
pub(crate) struct Reach<K: Eq + Hash, V, E, S: BuildHasher, P: Fact<K, V>> {
    pub(crate) layers: Layers<K, V, E, PlainTable<K, V, S>, PlainCall<K, V>, InHand, S>,
    pub(crate) ends: HashMap<u64, K>,
    woken: Option<CallList>,
    pub(crate) carried: u64,
    fact: PhantomData<P>,
}

impl<K: Eq + Hash + Exact, V: Exact, E: Exact, S: BuildHasher + Drop, P: Fact<K, V>> Reach<
    K,
    V,
    E,
    S,
    P,
> {
    /// Over these layers, whose last visit handed nobody out, and of which no load has ended and no
    /// call carries a record.
    pub(crate) fn over(
        alloc: Global,
        layers: Layers<K, V, E, PlainTable<K, V, S>, PlainCall<K, V>, InHand, S>,
    ) -> Self
        ensures layers { result.layers ≡ layers }
        ensures ends { (n : ℕ) → get nat_eq result.ends n ≡ None }
        ensures carried { result.carried ≡ 0 }
    {
        Reach {
            layers,
            ends: HashMap::new(alloc),
            woken: None,
            carried: 0,
            fact: PhantomData,
        }
    }

    /// Hands out the wakers of the calls that the last visit handed out, if it did.
    pub(crate) fn hand_out(&mut self, parked: &mut Parked, woken: &mut ToWake)
        requires { IsKept K.eq P.holds (get nat_eq self.old.ends) self.old.layers }
        ensures kept { IsKept K.eq P.holds (get nat_eq self.new.ends) self.new.layers }
        ensures out { self.new.woken ≡ None }
        ensures parked { (calls : List ℕ) → self.old.woken ≡ Some calls → (n : ℕ)
            → is_parked parked.new n ≡ cond (waits n calls) false (is_parked parked.old n) }
        ensures nobody { self.old.woken ≡ None → parked.new ≡ parked.old }
    {
        match self.take_woken() {
            Some(handed) => parked.hand_out(handed, woken),
            None => {}
        }
    }

    // Gives those that the last visit handed out, if it is one that does.
    fn take_woken(&mut self) -> Option<HandedOut>
        requires { IsKept K.eq P.holds (get nat_eq self.old.ends) self.old.layers }
        ensures kept { IsKept K.eq P.holds (get nat_eq self.new.ends) self.new.layers }
        ensures out { self.new.woken ≡ None }
        ensures some { IfSome result (λ handed. self.old.woken ≡ Some handed.calls) }
        ensures none { IfNone result (self.old.woken ≡ None) }
    {
        if self.woken.is_none() {
            return None;
        }
        match self.woken.take() {
            Some(calls) => Some(HandedOut::of(calls)),
            None => None,
        }
    }
}

impl<K: Eq + Hash + Exact, V: Exact, E: Exact, S: BuildHasher + Drop, P: Fact<K, V>> Ground<K, V, E>
    for Reach<K, V, E, S, P> {
    ghost use Rattle.moka_hist.specs.State.{World};
    ghost use Rattle.moka_init.specs.Grounds.{Accesses, Gives, Lacks, OfWanted};
    ghost use Rattle.moka_layers.specs.Needing.{NeedsMemory};
    ghost use Rattle.moka_layers.specs.Layers.{account_of};
    ghost use Rattle.moka_table.specs.Plain.{plain_table};

    ghost stands = { λ r w. ReachIs K.eq r.layers w };

    ghost fits = { λ r want. MayReach K.eq r.layers want };

    ghost account = { λ r. account_of (plain_table K.eq) r.layers };

    ghost needs = { NeedsMemory };

    ghost keeps = { λ old new. (new.layers.call ≡ old.layers.call)
        × (old.layers.begun ≡ None → new.layers.begun ≡ None) × (new.ends ≡ old.ends) };

    ghost allows = { λ r w want stands may. (w, stands, may) };

    ghost keeps_same = { λ r. (refl, λ none. none, refl) };

    ghost keeps_on = { λ a b c before after.
        (after.0 ∙ before.0, λ none. after.1 (before.1 none), after.2 ∙ before.2) };

    ghost counts = { λ r w stands. counted (plain_table K.eq) in_hand K.eq r.layers w
        stands.ground };

    fn access(&mut self, want: Want<K, V, E>) -> Result<Got<K, V, E>, AllocError>
        requires fits { MayReach K.eq self.old.layers want }
        // What it gives, and what is told then.
        ensures gives { IfOk result (λ given.
            OfWanted (account_of (plain_table K.eq) self.old.layers) want (λ access.
            Gives K.eq self.old.layers.call (ReachIs K.eq self.old.layers) access given
            (ReachIs K.eq self.new.layers))) }
        ensures tells { IfOk result (λ given.
            OfWanted (account_of (plain_table K.eq) self.old.layers) want (λ access.
            Accesses (account_of (plain_table K.eq) self.old.layers) access given
            (account_of (plain_table K.eq) self.new.layers))) }
        ensures keeps { (self.new.layers.call ≡ self.old.layers.call)
            × (self.old.layers.begun ≡ None → self.new.layers.begun ≡ None)
            × (self.new.ends ≡ self.old.ends) }
        // Without memory.
        ensures err { OnErr result (account_of (plain_table K.eq) self.new.layers
            ≡ account_of (plain_table K.eq) self.old.layers) }
        ensures err_stands { OnErr result ((w : World K V E) → ReachIs K.eq self.old.layers w
            → ReachIs K.eq self.new.layers w) }
        ensures err_needs { OnErr result
            (OfWanted (account_of (plain_table K.eq) self.old.layers) want
            (Lacks (ReachIs K.eq self.old.layers) NeedsMemory)) }
    {
        moka_laws::visits_keep_sound::<K, V, E>();
        self.layers.access_waking(want, &mut self.woken)
    }

    fn retire(&mut self, ids: &IdList) -> Result<Got<K, V, E>, AllocError>
        requires fits { MayReach K.eq self.old.layers (Want.Desk (Visit.Retire ids.now)) }
        // What it gives, and what is told then.
        ensures gives { IfOk result (λ given.
            OfWanted (account_of (plain_table K.eq) self.old.layers)
            (Want.Desk (Visit.Retire ids.now)) (λ access.
            Gives K.eq self.old.layers.call (ReachIs K.eq self.old.layers) access given
            (ReachIs K.eq self.new.layers))) }
        ensures tells { IfOk result (λ given.
            OfWanted (account_of (plain_table K.eq) self.old.layers)
            (Want.Desk (Visit.Retire ids.now)) (λ access.
            Accesses (account_of (plain_table K.eq) self.old.layers) access given
            (account_of (plain_table K.eq) self.new.layers))) }
        ensures keeps { (self.new.layers.call ≡ self.old.layers.call)
            × (self.old.layers.begun ≡ None → self.new.layers.begun ≡ None)
            × (self.new.ends ≡ self.old.ends) }
        // Without memory.
        ensures err { OnErr result (account_of (plain_table K.eq) self.new.layers
            ≡ account_of (plain_table K.eq) self.old.layers) }
        ensures err_stands { OnErr result ((w : World K V E) → ReachIs K.eq self.old.layers w
            → ReachIs K.eq self.new.layers w) }
        ensures err_needs { OnErr result
            (OfWanted (account_of (plain_table K.eq) self.old.layers)
            (Want.Desk (Visit.Retire ids.now))
            (Lacks (ReachIs K.eq self.old.layers) NeedsMemory)) }
    {
        moka_laws::visits_keep_sound::<K, V, E>();
        Ok(self.layers.retire(ids))
    }
}
