//! Loading a value, which may fail.
ghost use Rattle.std.specs.Prelude.{◌≡◌, Some, None, IsSome, IfOk, Ok};
ghost use Rattle.moka_cache.specs.Asked.{Accords, Untested};
ghost use Rattle.moka_cache.specs.Meets.{GivesSo, MeetsFact};
ghost use Rattle.moka_hist.specs.declared.events.Start.TheVariants as Start;
ghost use Rattle.moka_cache.specs.Inits.{GivesResult};
ghost use Rattle.moka_cache.specs.Keys.{key_of};
ghost use Rattle.moka_cache.specs.Loaded.{try_loaded_in};
ghost use Rattle.moka_cache.specs.Settings.{rules_of};
ghost use Rattle.moka_cache.specs.Stages.{BeginsWith, MayPoll};
ghost use Rattle.moka_cache.specs.Starts.{called};
ghost use Rattle.moka_cache.specs.Suits.{Tells};

use crate::begin::{Begin, Begun};
use crate::by_init::ByTryInit;
use crate::cache::Cache;
use crate::call::CacheCall;
use crate::errors::LoadError;
use crate::init::Init;
use crate::key::CallKey;
use moka_facts::{Anything, Fact};
use moka_hist::{Answer, Start};
use moka_kept::{Listener, NoListener};
use moka_room::FixedSeed;
use moka_values::Exact;
use std::hash::{BuildHasher, Hash};

/// What a load that may fail looks up, and stores where it is absent and its initializer gives it.
#[derive(Drop)]
pub struct ToTryLoad<'a, K> {
    key: CallKey<'a, K>,
}

/// Looks the value of a key up, or loads it, polled until it is there, or the load has failed.
pub type TryGetWith<'a, K, V, E, I, L = NoListener, S = FixedSeed, P = Anything> = CacheCall<
    'a,
    ToTryLoad<'a, K>,
    K,
    V,
    E,
    ByTryInit<I>,
    L,
    S,
    P,
>;

impl<K: Exact, V: Drop, E: Drop> Begin<K, V, E> for ToTryLoad<'_, K> {
    type Output = Result<V, LoadError<E>>;

    ghost start = { λ load. Start.Try (key_of load.key) };

    ghost named = { λ load. Some (key_of load.key) };

    ghost output = { λ named answer. try_loaded_in answer };

    fn start(self) -> Result<Begun<K, V>, Self> {
        match self.key.into_two() {
            Ok((key, named)) => Ok(Begun::named(Start::Try { key }, named)),
            Err(key) => Err(ToTryLoad { key }),
        }
    }

    fn output(_key: Option<K>, answer: Answer<K, V, E>) -> Result<V, LoadError<E>>
        requires { IsSome (try_loaded_in answer) }
        ensures told { Some result ≡ try_loaded_in answer }
    {
        match answer {
            Answer::Loaded { value, fresh: _ } => Ok(value),
            Answer::InitErr(error) => Err(LoadError::Init(error)),
            Answer::RetriesExhausted => Err(LoadError::RetriesExhausted),
            _ => unreachable!(),
        }
    }
}

impl<K, V, E, L, S, P> Cache<K, V, E, L, S, P>
where
    K: Eq + Hash + Exact,
    V: Exact,
    E: Exact,
    L: Listener<K, V>,
    S: BuildHasher + Drop,
    P: Fact<K, V>,
{
    /// Looks the key up, or loads its value, as `get_with` does, by an initializer that may give an
    /// error. Then nothing is stored, and all loads of this kind that wait for it answer that error
    /// too; the next one asks anew. Loads of other kinds don't wait for it.
    pub fn try_get_with<'a, I: Init<Result<V, E>>>(
        &'a self,
        key: K,
        init: I,
    ) -> TryGetWith<'a, K, V, E, I, L, S, P>
        requires fact { (value : V) → I.gives init (Ok value) → P.holds key value }
        ensures fresh { BeginsWith result.stage (λ load. key_of load.key ≡ key) }
        ensures may { MayPoll result.stage }
        ensures init { result.asked.init ≡ Some init }
        ensures tells { Tells K.eq (GivesResult I.gives result.asked)
            (called (rules_of result.cache.now) (λ load. Start.Try (key_of load.key)))
            (λ named answer. try_loaded_in answer) result.stage }
        // What it stores, tells and answers meets the fact.
        ensures so { MeetsFact K.eq P.holds (λ load. Some (key_of load.key))
            (GivesResult I.gives result.asked) Untested
            (called (rules_of result.cache.now) (λ load. Start.Try (key_of load.key)))
            result.stage result.named }
        ensures gives { GivesSo K.eq P.holds (Accords (GivesResult I.gives result.asked) Untested)
            (rules_of result.cache.now) (λ load. Start.Try (key_of load.key))
            (λ load. Some (key_of load.key)) (λ named answer. try_loaded_in answer) result.stage
            result.named
            (λ told. IfOk told (P.holds key)) }
        ensures cache { result.cache.now ≡ self.now }
    {
        moka_shapes::loads_tell::<K, V, E>();
        let key = CallKey::Owned(key);
        self.call_asking(ToTryLoad { key }, ByTryInit { init: Some(init) })
    }

    /// Looks a borrowed key up, or loads its value, as `try_get_with` does. The first poll copies
    /// the key.
    pub fn try_get_with_by_ref<'a, I: Init<Result<V, E>>>(
        &'a self,
        key: &'a K,
        init: I,
    ) -> TryGetWith<'a, K, V, E, I, L, S, P>
        requires fact { (value : V) → I.gives init (Ok value) → P.holds key.now value }
        ensures fresh { BeginsWith result.stage (λ load. key_of load.key ≡ key.now) }
        ensures may { MayPoll result.stage }
        ensures init { result.asked.init ≡ Some init }
        ensures tells { Tells K.eq (GivesResult I.gives result.asked)
            (called (rules_of result.cache.now) (λ load. Start.Try (key_of load.key)))
            (λ named answer. try_loaded_in answer) result.stage }
        // What it stores, tells and answers meets the fact.
        ensures so { MeetsFact K.eq P.holds (λ load. Some (key_of load.key))
            (GivesResult I.gives result.asked) Untested
            (called (rules_of result.cache.now) (λ load. Start.Try (key_of load.key)))
            result.stage result.named }
        ensures gives { GivesSo K.eq P.holds (Accords (GivesResult I.gives result.asked) Untested)
            (rules_of result.cache.now) (λ load. Start.Try (key_of load.key))
            (λ load. Some (key_of load.key)) (λ named answer. try_loaded_in answer) result.stage
            result.named
            (λ told. IfOk told (P.holds key.now)) }
        ensures cache { result.cache.now ≡ self.now }
    {
        moka_shapes::loads_tell::<K, V, E>();
        let key = CallKey::Lent(key);
        self.call_asking(ToTryLoad { key }, ByTryInit { init: Some(init) })
    }
}
