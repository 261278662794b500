//! Loading a value.
ghost use Rattle.std.specs.Prelude.{◌≡◌, Some, None, IsSome, IfOk};
ghost use Rattle.std.specs.Fn.{CalledAt};
ghost use Rattle.moka_cache.specs.Asked.{Accords, MayAnswer, Untested};
ghost use Rattle.moka_cache.specs.Meets.{GivesSo, MeetsFact};
ghost use Rattle.moka_hist.specs.declared.events.Start.TheVariants as Start;
ghost use Rattle.moka_cache.specs.Inits.{GivesValue};
ghost use Rattle.moka_cache.specs.Keys.{key_of};
ghost use Rattle.moka_cache.specs.Loaded.{loaded_in};
ghost use Rattle.moka_cache.specs.Settings.{rules_of};
ghost use Rattle.moka_cache.specs.Stages.{BeginsWith, MayPoll};
ghost use Rattle.moka_cache.specs.Starts.{called};
ghost use Rattle.moka_cache.specs.Suits.{Tells};

use crate::begin::{Begin, Begun};
use crate::by_init::{ByInit, ByInitIf};
use crate::cache::Cache;
use crate::call::CacheCall;
use crate::errors::RetriesExhausted;
use crate::init::Init;
use crate::key::CallKey;
use moka_facts::{Anything, Fact};
use moka_hist::{Answer, Start};
use moka_kept::{Listener, NoListener};
use moka_room::FixedSeed;
use moka_values::Exact;
use std::hash::{BuildHasher, Hash};

/// What a load looks up, and stores where it is absent.
#[derive(Drop)]
pub struct ToLoad<'a, K> {
    key: CallKey<'a, K>,
    /// The number of its replace test, if it has one: 0, since a state has one at most.
    replace: Option<u64>,
}

/// Looks the value of a key up, or loads it, polled until it is there.
pub type GetWith<'a, K, V, E, I, L = NoListener, S = FixedSeed, P = Anything> = CacheCall<
    'a,
    ToLoad<'a, K>,
    K,
    V,
    E,
    ByInit<I>,
    L,
    S,
    P,
>;

/// Looks the value of a key up, or loads it where it is absent or a replace test holds on it,
/// polled until it is there.
pub type GetWithIf<'a, K, V, E, I, F, L = NoListener, S = FixedSeed, P = Anything> = CacheCall<
    'a,
    ToLoad<'a, K>,
    K,
    V,
    E,
    ByInitIf<I, F>,
    L,
    S,
    P,
>;

impl<K: Exact, V: Drop, E: Drop> Begin<K, V, E> for ToLoad<'_, K> {
    type Output = Result<V, RetriesExhausted>;

    ghost start = { λ load. Start.GetWith (key_of load.key) load.replace };

    ghost named = { λ load. Some (key_of load.key) };

    ghost output = { λ named answer. loaded_in answer };

    fn start(self) -> Result<Begun<K, V>, Self> {
        let ToLoad { key, replace } = self;
        match key.into_two() {
            Ok((key, named)) => Ok(Begun::named(Start::GetWith { key, replace }, named)),
            Err(key) => Err(ToLoad { key, replace }),
        }
    }

    fn output(_key: Option<K>, answer: Answer<K, V, E>) -> Result<V, RetriesExhausted>
        requires { IsSome (loaded_in answer) }
        ensures told { Some result ≡ loaded_in answer }
    {
        match answer {
            Answer::Loaded { value, fresh: _ } => Ok(value),
            Answer::RetriesExhausted => Err(RetriesExhausted),
            _ => unreachable!(),
        }
    }
}

impl<K, V, E, L, S, P> Cache<K, V, E, L, S, P>
where
    K: Eq + Hash + Exact,
    V: Exact,
    E: Exact,
    L: Listener<K, V>,
    S: BuildHasher + Drop,
    P: Fact<K, V>,
{
    /// Looks the key up, and loads its value where it is absent. Of all callers that miss the key
    /// at once one owns the load and has its `init` polled; the others answer what that gave.
    /// Answers `RetriesExhausted` once 200 owners were dropped while this call waited for them.
    pub fn get_with<'a, I: Init<V>>(&'a self, key: K, init: I) -> GetWith<'a, K, V, E, I, L, S, P>
        requires fact { (value : V) → I.gives init value → P.holds key value }
        ensures fresh { BeginsWith result.stage
            (λ load. (key_of load.key ≡ key) × (load.replace ≡ None)) }
        ensures may { MayPoll result.stage }
        ensures init { result.asked.init ≡ Some init }
        ensures tells { Tells K.eq (GivesValue I.gives result.asked) (called
            (rules_of result.cache.now) (λ load. Start.GetWith (key_of load.key) load.replace))
            (λ named answer. loaded_in answer) result.stage }
        // What it stores, tells and answers meets the fact.
        ensures so { MeetsFact K.eq P.holds (λ load. Some (key_of load.key))
            (GivesValue I.gives result.asked) Untested
            (called (rules_of result.cache.now)
            (λ load. Start.GetWith (key_of load.key) load.replace))
            result.stage result.named }
        ensures gives { GivesSo K.eq P.holds (Accords (GivesValue I.gives result.asked) Untested)
            (rules_of result.cache.now) (λ load. Start.GetWith (key_of load.key) load.replace)
            (λ load. Some (key_of load.key)) (λ named answer. loaded_in answer) result.stage
            result.named
            (λ told. IfOk told (P.holds key)) }
        ensures cache { result.cache.now ≡ self.now }
    {
        moka_shapes::loads_tell::<K, V, E>();
        let key = CallKey::Owned(key);
        let replace = None;
        self.call_asking(ToLoad { key, replace }, ByInit { init: Some(init) })
    }

    /// Looks a borrowed key up, and loads its value, as `get_with` does. The first poll copies the
    /// key.
    pub fn get_with_by_ref<'a, I: Init<V>>(
        &'a self,
        key: &'a K,
        init: I,
    ) -> GetWith<'a, K, V, E, I, L, S, P>
        requires fact { (value : V) → I.gives init value → P.holds key.now value }
        ensures fresh { BeginsWith result.stage
            (λ load. (key_of load.key ≡ key.now) × (load.replace ≡ None)) }
        ensures may { MayPoll result.stage }
        ensures init { result.asked.init ≡ Some init }
        ensures tells { Tells K.eq (GivesValue I.gives result.asked) (called
            (rules_of result.cache.now) (λ load. Start.GetWith (key_of load.key) load.replace))
            (λ named answer. loaded_in answer) result.stage }
        // What it stores, tells and answers meets the fact.
        ensures so { MeetsFact K.eq P.holds (λ load. Some (key_of load.key))
            (GivesValue I.gives result.asked) Untested
            (called (rules_of result.cache.now)
            (λ load. Start.GetWith (key_of load.key) load.replace))
            result.stage result.named }
        ensures gives { GivesSo K.eq P.holds (Accords (GivesValue I.gives result.asked) Untested)
            (rules_of result.cache.now) (λ load. Start.GetWith (key_of load.key) load.replace)
            (λ load. Some (key_of load.key)) (λ named answer. loaded_in answer) result.stage
            result.named
            (λ told. IfOk told (P.holds key.now)) }
        ensures cache { result.cache.now ≡ self.now }
    {
        moka_shapes::loads_tell::<K, V, E>();
        let key = CallKey::Lent(key);
        let replace = None;
        self.call_asking(ToLoad { key, replace }, ByInit { init: Some(init) })
    }

    /// Looks the key up, and loads its value as `get_with` does where it is absent, or where
    /// `replace_if` holds on the value that is there. That is asked without the lock: of what the
    /// first look found, and again, by the owner of the load, of what its own look found; never
    /// while the load waits for another. A value that the owner of another load got is answered
    /// without being tested. Where a poll found no memory to go on, the next asks again.
    pub fn get_with_if<'a, I: Init<V>, F: FnMut(&V) -> bool + Drop>(
        &'a self,
        key: K,
        init: I,
        replace_if: F,
    ) -> GetWithIf<'a, K, V, E, I, F, L, S, P>
        requires fact { (value : V) → I.gives init value → P.holds key value }
        ensures fresh { BeginsWith result.stage
            (λ load. (key_of load.key ≡ key) × IsSome load.replace) }
        ensures may { MayPoll result.stage }
        ensures init { result.asked.init.init ≡ Some init }
        ensures test { result.asked.replace_if ≡ replace_if }
        ensures tells { Tells K.eq (GivesValue I.gives result.asked.init) (called
            (rules_of result.cache.now) (λ load. Start.GetWith (key_of load.key) load.replace))
            (λ named answer. loaded_in answer) result.stage }
        // What it stores, tells and answers meets the fact.
        ensures so { MeetsFact K.eq P.holds (λ load. Some (key_of load.key))
            (GivesValue I.gives result.asked.init)
            (MayAnswer (CalledAt F.FnMut) result.asked.replace_if)
            (called (rules_of result.cache.now)
            (λ load. Start.GetWith (key_of load.key) load.replace))
            result.stage result.named }
        ensures gives { GivesSo K.eq P.holds
            (Accords (GivesValue I.gives result.asked.init)
            (MayAnswer (CalledAt F.FnMut) result.asked.replace_if))
            (rules_of result.cache.now) (λ load. Start.GetWith (key_of load.key) load.replace)
            (λ load. Some (key_of load.key)) (λ named answer. loaded_in answer) result.stage
            result.named
            (λ told. IfOk told (P.holds key)) }
        ensures cache { result.cache.now ≡ self.now }
    {
        moka_shapes::loads_tell::<K, V, E>();
        let key = CallKey::Owned(key);
        let replace = Some(0);
        let init = ByInit { init: Some(init) };
        self.call_asking(ToLoad { key, replace }, ByInitIf { init, replace_if })
    }
}
