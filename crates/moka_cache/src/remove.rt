//! Removing a key, with its value.
ghost use Rattle.std.specs.Prelude.{◌≡◌, Some, None, IfSome};
ghost use Rattle.moka_cache.specs.Settings.{rules_of};
ghost use Rattle.moka_cache.specs.Starts.{called};
ghost use Rattle.moka_kept.specs.Taking.{NoAnswer};
ghost use Rattle.moka_cache.specs.Asked.{Accords, Untested};
ghost use Rattle.moka_cache.specs.Meets.{GivesSo, MeetsFact};
ghost use Rattle.moka_hist.specs.declared.events.Start.TheVariants as Start;
ghost use Rattle.moka_cache.specs.Suits.{Suits};
ghost use Rattle.moka_cache.specs.Stages.{BeginsWith, MayPoll, value_in};

use crate::asked::Nobody;
use crate::begin::{Begin, Begun};
use crate::cache::Cache;
use crate::call::CacheCall;
use crate::get::value_in;
use moka_facts::{Anything, Fact};
use moka_hist::{Answer, Start};
use moka_kept::{Listener, NoListener};
use moka_room::FixedSeed;
use moka_values::Exact;
use std::hash::{BuildHasher, Hash};

/// What a removal takes out.
#[derive(Drop)]
pub struct ToRemove<'a, K> {
    key: &'a K,
}

/// Takes a key out and gives its value, polled until that is logged, or the key known to be absent.
pub type Remove<'a, K, V, E, L = NoListener, S = FixedSeed, P = Anything> = CacheCall<
    'a,
    ToRemove<'a, K>,
    K,
    V,
    E,
    Nobody,
    L,
    S,
    P,
>;

impl<K: Exact, V: Drop, E: Drop> Begin<K, V, E> for ToRemove<'_, K> {
    type Output = Option<V>;

    ghost start = { λ remove. Start.Remove remove.key.now };

    ghost named = { λ remove. None };

    ghost output = { λ named answer. Some (value_in answer) };

    fn start(self) -> Result<Begun<K, V>, Self> {
        match self.key.clone() {
            Ok(key) => Ok(Begun::unnamed(Start::Remove { key })),
            Err(_) => Err(self),
        }
    }

    fn output(_key: Option<K>, answer: Answer<K, V, E>) -> Option<V>
        ensures told { Some result ≡ Some (value_in answer) }
    {
        value_in(answer)
    }
}

impl<K, V, E, L, S, P> Cache<K, V, E, L, S, P>
where
    K: Eq + Hash + Exact,
    V: Exact,
    E: Exact,
    L: Listener<K, V>,
    S: BuildHasher + Drop,
    P: Fact<K, V>,
{
    /// Takes the key out. Answers the value that it had, or None where it is absent.
    pub fn remove<'a>(&'a self, key: &'a K) -> Remove<'a, K, V, E, L, S, P>
        ensures fresh { BeginsWith result.stage (λ remove. remove.key.now ≡ key.now) }
        ensures may { MayPoll result.stage }
        ensures suits { Suits K.eq (λ remove. Start.Remove remove.key.now) result.stage }
        // What it stores, tells and answers meets the fact.
        ensures so { MeetsFact K.eq P.holds (λ remove. None) NoAnswer Untested
            (called (rules_of result.cache.now) (λ remove. Start.Remove remove.key.now))
            result.stage result.named }
        ensures gives { GivesSo K.eq P.holds (Accords NoAnswer Untested)
            (rules_of result.cache.now) (λ remove. Start.Remove remove.key.now)
            (λ remove. None) (λ named answer. Some (value_in answer)) result.stage result.named
            (λ found. IfSome found (P.holds key.now)) }
        ensures cache { result.cache.now ≡ self.now }
    {
        self.call(ToRemove { key })
    }
}
