//! Storing a value made of what a key has.
ghost use Rattle.std.specs.Prelude.{◌≡◌, Option, Some, None, Result, IsSome, Ok};
ghost use Rattle.moka_cache.specs.Meets.{GivesSo, MeetsFact};
ghost use Rattle.moka_hist.specs.declared.events.Op.TheVariants as op;
ghost use Rattle.moka_hist.specs.declared.events.Start.TheVariants as Start;
ghost use Rattle.moka_hist.specs.declared.entries.Entry.{Entry};
ghost use Rattle.moka_hist.specs.declared.events.Op.{Op};
ghost use Rattle.moka_cache.specs.Asked.{Accords, FoundSo, IsPut, Untested};
ghost use Rattle.moka_cache.specs.Computes.{CanPut, GivesPut};
ghost use Rattle.moka_cache.specs.Entries.{stored_by, stored_in};
ghost use Rattle.moka_cache.specs.Keys.{key_of};
ghost use Rattle.moka_cache.specs.Settings.{rules_of};
ghost use Rattle.moka_cache.specs.Stages.{BeginsWith, MayPoll};
ghost use Rattle.moka_cache.specs.Starts.{called};
ghost use Rattle.moka_cache.specs.Suits.{Tells};

use crate::begin::{Begin, Begun};
use crate::by_compute::{ByUpsert, ComputeStage};
use crate::call::CacheCall;
use crate::compute::Compute;
use crate::entry::EntrySelector;
use crate::key::CallKey;
use moka_facts::{Anything, Fact};
use moka_hist::{Answer, CompResult, Entry, Op, Start};
use moka_kept::{Listener, NoListener};
use moka_room::FixedSeed;
use moka_values::Exact;
use std::hash::{BuildHasher, Hash};

/// What an upsert is of.
#[derive(Drop)]
pub struct ToUpsert<'a, K> {
    key: CallKey<'a, K>,
}

impl<K: Exact, V: Drop, E: Drop> Begin<K, V, E> for ToUpsert<'_, K> {
    type Output = Entry<K, V>;

    ghost start = { λ upsert. Start.Upsert (key_of upsert.key) };

    ghost named = { λ upsert. None };

    ghost output = { λ named answer. stored_in answer };

    fn start(self) -> Result<Begun<K, V>, Self> {
        match self.key.into_key() {
            Ok(key) => Ok(Begun::unnamed(Start::Upsert { key })),
            Err(key) => Err(ToUpsert { key }),
        }
    }

    fn output(_key: Option<K>, answer: Answer<K, V, E>) -> Entry<K, V>
        requires { IsSome (stored_in answer) }
        ensures told { Some result ≡ stored_in answer }
    {
        match answer {
            Answer::Computed(done) => stored_by(done),
            _ => unreachable!(),
        }
    }
}

/// Asks for a value made of what a key has, and stores it, polled until that is logged.
pub type UpsertWith<'a, K, V, E, C, L = NoListener, S = FixedSeed, P = Anything> = CacheCall<
    'a,
    ToUpsert<'a, K>,
    K,
    V,
    E,
    ByUpsert<C>,
    L,
    S,
    P,
>;

impl<'a, K, V, E, L, S, P> EntrySelector<'a, K, V, E, L, S, P>
where
    K: Eq + Hash + Exact,
    V: Exact,
    E: Exact,
    L: Listener<K, V>,
    S: BuildHasher + Drop,
    P: Fact<K, V>,
{
    /// Waits until no other compute of the key goes, looks the key up, asks for a value made of
    /// what it has, and stores that. Answers its entry: fresh, and replaced where the look found
    /// one.
    pub fn and_upsert_with<C: Compute<K, V, E>>(
        self,
        compute: C,
    ) -> UpsertWith<'a, K, V, E, C, L, S, P>
        requires fine { (r : Result (Op V) E) → C.gives compute r → IsPut r }
        requires fact { (value : V) → C.gives compute (Ok (op.Put value)) → P.holds
            (key_of self.key) value }
        ensures fresh { BeginsWith result.stage (λ begin. begin.key ≡ self.entry.key) }
        ensures may { MayPoll result.stage }
        ensures compute { result.asked.stage ≡ ComputeStage.Fresh compute }
        ensures asks { ((found : Option (Entry K V)) → FoundSo P.holds found
            → C.can_start compute found)
            → CanPut P.holds C.can_start C.can_poll C.gives result.asked }
        ensures tells { Tells K.eq (GivesPut C.gives result.asked) (called
            (rules_of result.cache.now) (λ begin. Start.Upsert (key_of begin.key)))
            (λ named answer. stored_in answer) result.stage }
        // What it stores, tells and answers meets the fact.
        ensures so { MeetsFact K.eq P.holds (λ begin. None) (GivesPut C.gives result.asked) Untested
            (called (rules_of result.cache.now) (λ begin. Start.Upsert (key_of begin.key)))
            result.stage result.named }
        ensures gives { GivesSo K.eq P.holds (Accords (GivesPut C.gives result.asked) Untested)
            (rules_of result.cache.now) (λ begin. Start.Upsert (key_of begin.key))
            (λ begin. None) (λ named answer. stored_in answer) result.stage result.named
            (λ entry. P.holds (key_of self.entry.key) entry.value) }
        ensures cache { result.cache.now ≡ self.entry.cache.now }
    {
        moka_shapes::computes_tell::<K, V, E>();
        let EntrySelector { cache, key } = self;
        let stage = ComputeStage::Fresh(compute);
        cache.call_asking(ToUpsert { key }, ByUpsert { stage })
    }
}

// The entry that the compute has stored.
fn stored_by<K: Drop, V: Drop>(done: CompResult<K, V>) -> Entry<K, V>
    requires { IsSome (stored_by done) }
    ensures { Some result ≡ stored_by done }
{
    match done {
        CompResult::Inserted(entry) => entry,
        CompResult::ReplacedWith(entry) => entry,
        _ => unreachable!(),
    }
}
