//! Loading a value that there may be.
ghost use Rattle.std.specs.Prelude.{◌≡◌, Some, None, IsSome, IfOk, IfSome};
ghost use Rattle.moka_cache.specs.Asked.{Accords, Untested};
ghost use Rattle.moka_cache.specs.Meets.{GivesSo, MeetsFact};
ghost use Rattle.moka_hist.specs.declared.events.Start.TheVariants as Start;
ghost use Rattle.moka_cache.specs.Inits.{GivesOption};
ghost use Rattle.moka_cache.specs.Keys.{key_of};
ghost use Rattle.moka_cache.specs.Loaded.{optionally_loaded_in};
ghost use Rattle.moka_cache.specs.Settings.{rules_of};
ghost use Rattle.moka_cache.specs.Stages.{BeginsWith, MayPoll};
ghost use Rattle.moka_cache.specs.Starts.{called};
ghost use Rattle.moka_cache.specs.Suits.{Tells};

use crate::begin::{Begin, Begun};
use crate::by_init::ByOptionalInit;
use crate::cache::Cache;
use crate::call::CacheCall;
use crate::errors::RetriesExhausted;
use crate::init::Init;
use crate::key::CallKey;
use moka_facts::{Anything, Fact};
use moka_hist::{Answer, Start};
use moka_kept::{Listener, NoListener};
use moka_room::FixedSeed;
use moka_values::Exact;
use std::hash::{BuildHasher, Hash};

/// What an optional load looks up, and stores where it is absent and its initializer gives it.
#[derive(Drop)]
pub struct ToLoadOptionally<'a, K> {
    key: CallKey<'a, K>,
}

/// Looks the value of a key up, or loads it, if there is one, polled until that is known.
pub type OptionallyGetWith<'a, K, V, E, I, L = NoListener, S = FixedSeed, P = Anything> = CacheCall<
    'a,
    ToLoadOptionally<'a, K>,
    K,
    V,
    E,
    ByOptionalInit<I>,
    L,
    S,
    P,
>;

impl<K: Exact, V: Drop, E: Drop> Begin<K, V, E> for ToLoadOptionally<'_, K> {
    type Output = Result<Option<V>, RetriesExhausted>;

    ghost start = { λ load. Start.Optional (key_of load.key) };

    ghost named = { λ load. Some (key_of load.key) };

    ghost output = { λ named answer. optionally_loaded_in answer };

    fn start(self) -> Result<Begun<K, V>, Self> {
        match self.key.into_two() {
            Ok((key, named)) => Ok(Begun::named(Start::Optional { key }, named)),
            Err(key) => Err(ToLoadOptionally { key }),
        }
    }

    fn output(_key: Option<K>, answer: Answer<K, V, E>) -> Result<Option<V>, RetriesExhausted>
        requires { IsSome (optionally_loaded_in answer) }
        ensures told { Some result ≡ optionally_loaded_in answer }
    {
        match answer {
            Answer::Loaded { value, fresh: _ } => Ok(Some(value)),
            Answer::Nothing => Ok(None),
            Answer::RetriesExhausted => Err(RetriesExhausted),
            _ => unreachable!(),
        }
    }
}

impl<K, V, E, L, S, P> Cache<K, V, E, L, S, P>
where
    K: Eq + Hash + Exact,
    V: Exact,
    E: Exact,
    L: Listener<K, V>,
    S: BuildHasher + Drop,
    P: Fact<K, V>,
{
    /// Looks the key up, or loads its value, as `get_with` does, by an initializer that may give
    /// none. Then nothing is stored, and all loads of this kind that wait for it answer None too;
    /// the next one asks anew. Loads of other kinds don't wait for it.
    pub fn optionally_get_with<'a, I: Init<Option<V>>>(
        &'a self,
        key: K,
        init: I,
    ) -> OptionallyGetWith<'a, K, V, E, I, L, S, P>
        requires fact { (value : V) → I.gives init (Some value) → P.holds key value }
        ensures fresh { BeginsWith result.stage (λ load. key_of load.key ≡ key) }
        ensures may { MayPoll result.stage }
        ensures init { result.asked.init ≡ Some init }
        ensures tells { Tells K.eq (GivesOption I.gives result.asked)
            (called (rules_of result.cache.now) (λ load. Start.Optional (key_of load.key)))
            (λ named answer. optionally_loaded_in answer) result.stage }
        // What it stores, tells and answers meets the fact.
        ensures so { MeetsFact K.eq P.holds (λ load. Some (key_of load.key))
            (GivesOption I.gives result.asked) Untested
            (called (rules_of result.cache.now) (λ load. Start.Optional (key_of load.key)))
            result.stage result.named }
        ensures gives { GivesSo K.eq P.holds (Accords (GivesOption I.gives result.asked) Untested)
            (rules_of result.cache.now) (λ load. Start.Optional (key_of load.key))
            (λ load. Some (key_of load.key)) (λ named answer. optionally_loaded_in answer)
            result.stage result.named
            (λ told. IfOk told (λ found. IfSome found (P.holds key))) }
        ensures cache { result.cache.now ≡ self.now }
    {
        moka_shapes::loads_tell::<K, V, E>();
        let key = CallKey::Owned(key);
        self.call_asking(
            ToLoadOptionally { key },
            ByOptionalInit { init: Some(init) },
        )
    }

    /// Looks a borrowed key up, or loads its value, as `optionally_get_with` does. The first poll
    /// copies the key.
    pub fn optionally_get_with_by_ref<'a, I: Init<Option<V>>>(
        &'a self,
        key: &'a K,
        init: I,
    ) -> OptionallyGetWith<'a, K, V, E, I, L, S, P>
        requires fact { (value : V) → I.gives init (Some value) → P.holds key.now value }
        ensures fresh { BeginsWith result.stage (λ load. key_of load.key ≡ key.now) }
        ensures may { MayPoll result.stage }
        ensures init { result.asked.init ≡ Some init }
        ensures tells { Tells K.eq (GivesOption I.gives result.asked)
            (called (rules_of result.cache.now) (λ load. Start.Optional (key_of load.key)))
            (λ named answer. optionally_loaded_in answer) result.stage }
        // What it stores, tells and answers meets the fact.
        ensures so { MeetsFact K.eq P.holds (λ load. Some (key_of load.key))
            (GivesOption I.gives result.asked) Untested
            (called (rules_of result.cache.now) (λ load. Start.Optional (key_of load.key)))
            result.stage result.named }
        ensures gives { GivesSo K.eq P.holds (Accords (GivesOption I.gives result.asked) Untested)
            (rules_of result.cache.now) (λ load. Start.Optional (key_of load.key))
            (λ load. Some (key_of load.key)) (λ named answer. optionally_loaded_in answer)
            result.stage result.named
            (λ told. IfOk told (λ found. IfSome found (P.holds key.now))) }
        ensures cache { result.cache.now ≡ self.now }
    {
        moka_shapes::loads_tell::<K, V, E>();
        let key = CallKey::Lent(key);
        self.call_asking(
            ToLoadOptionally { key },
            ByOptionalInit { init: Some(init) },
        )
    }
}
