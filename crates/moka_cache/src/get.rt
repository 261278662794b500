//! Looking a value up.
ghost use Rattle.std.specs.Prelude.{◌≡◌, Some, None, IfSome};
ghost use Rattle.moka_cache.specs.Settings.{rules_of};
ghost use Rattle.moka_cache.specs.Starts.{called};
ghost use Rattle.moka_kept.specs.Taking.{NoAnswer};
ghost use Rattle.moka_cache.specs.Asked.{Accords, Untested};
ghost use Rattle.moka_cache.specs.Meets.{GivesSo, MeetsFact};
ghost use Rattle.moka_hist.specs.declared.events.Start.TheVariants as Start;
ghost use Rattle.moka_cache.specs.Suits.{Suits};
ghost use Rattle.moka_cache.specs.Stages.{BeginsWith, MayPoll, value_in};

use crate::asked::Nobody;
use crate::begin::{Begin, Begun};
use crate::cache::Cache;
use crate::call::CacheCall;
use moka_facts::{Anything, Fact};
use moka_hist::{Answer, Start};
use moka_kept::{Listener, NoListener};
use moka_room::FixedSeed;
use moka_values::Exact;
use std::hash::{BuildHasher, Hash};

/// What a get looks up.
#[derive(Drop)]
pub struct ToGet<'a, K> {
    key: &'a K,
}

/// Looks the value of a key up, polled until it is found, or known to be absent.
pub type Get<'a, K, V, E, L = NoListener, S = FixedSeed, P = Anything> = CacheCall<
    'a,
    ToGet<'a, K>,
    K,
    V,
    E,
    Nobody,
    L,
    S,
    P,
>;

impl<K: Exact, V: Drop, E: Drop> Begin<K, V, E> for ToGet<'_, K> {
    type Output = Option<V>;

    ghost start = { λ get. Start.Get get.key.now };

    ghost named = { λ get. None };

    ghost output = { λ named answer. Some (value_in answer) };

    fn start(self) -> Result<Begun<K, V>, Self> {
        match self.key.clone() {
            Ok(key) => Ok(Begun::unnamed(Start::Get { key })),
            Err(_) => Err(self),
        }
    }

    fn output(_key: Option<K>, answer: Answer<K, V, E>) -> Option<V>
        ensures told { Some result ≡ Some (value_in answer) }
    {
        value_in(answer)
    }
}

impl<K, V, E, L, S, P> Cache<K, V, E, L, S, P>
where
    K: Eq + Hash + Exact,
    V: Exact,
    E: Exact,
    L: Listener<K, V>,
    S: BuildHasher + Drop,
    P: Fact<K, V>,
{
    /// Looks the key up. Answers its value, or None where it is absent.
    pub fn get<'a>(&'a self, key: &'a K) -> Get<'a, K, V, E, L, S, P>
        ensures fresh { BeginsWith result.stage (λ get. get.key.now ≡ key.now) }
        ensures may { MayPoll result.stage }
        ensures suits { Suits K.eq (λ get. Start.Get get.key.now) result.stage }
        // What it stores, tells and answers meets the fact.
        ensures so { MeetsFact K.eq P.holds (λ get. None) NoAnswer Untested
            (called (rules_of result.cache.now) (λ get. Start.Get get.key.now))
            result.stage result.named }
        ensures gives { GivesSo K.eq P.holds (Accords NoAnswer Untested)
            (rules_of result.cache.now) (λ get. Start.Get get.key.now)
            (λ get. None) (λ named answer. Some (value_in answer)) result.stage result.named
            (λ found. IfSome found (P.holds key.now)) }
        ensures cache { result.cache.now ≡ self.now }
    {
        self.call(ToGet { key })
    }
}

/// The value that an answer tells, if it does.
pub(crate) fn value_in<K: Drop, V: Drop, E: Drop>(answer: Answer<K, V, E>) -> Option<V>
    ensures { result ≡ value_in answer }
{
    match answer {
        Answer::Found(value) => value,
        Answer::Loaded { value, fresh: _ } => Some(value),
        Answer::Done => None,
        Answer::Nothing => None,
        Answer::InitErr(_) => None,
        Answer::Computed(_) => None,
        Answer::ComputeErr(_) => None,
        Answer::RetriesExhausted => None,
        Answer::Evicted => None,
        Answer::Kept => None,
        Answer::End | Answer::Id(_) | Answer::ClosuresDisabled | Answer::NoId => None,
    }
}
