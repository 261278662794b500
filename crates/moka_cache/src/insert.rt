//! Storing a value.
ghost use Rattle.std.specs.Prelude.{◌≡◌, Some, None};
ghost use Rattle.moka_cache.specs.Settings.{rules_of};
ghost use Rattle.moka_cache.specs.Starts.{called};
ghost use Rattle.moka_kept.specs.Taking.{NoAnswer};
ghost use Rattle.moka_cache.specs.Asked.{Untested};
ghost use Rattle.moka_cache.specs.Meets.{MeetsFact};
ghost use Rattle.moka_hist.specs.declared.events.Start.TheVariants as Start;
ghost use Rattle.moka_cache.specs.Suits.{Suits};
ghost use Rattle.moka_cache.specs.Stages.{BeginsWith, MayPoll};

use crate::asked::Nobody;
use crate::begin::{Begin, Begun};
use crate::cache::Cache;
use crate::call::CacheCall;
use moka_facts::{Anything, Fact};
use moka_hist::{Answer, Start};
use moka_kept::{Listener, NoListener};
use moka_room::FixedSeed;
use moka_values::Exact;
use std::hash::{BuildHasher, Hash};

/// What an insert stores.
#[derive(Drop)]
pub struct ToInsert<K, V> {
    key: K,
    value: V,
}

/// Stores a value under a key, polled until its write is logged.
pub type Insert<'a, K, V, E, L = NoListener, S = FixedSeed, P = Anything> = CacheCall<
    'a,
    ToInsert<K, V>,
    K,
    V,
    E,
    Nobody,
    L,
    S,
    P,
>;

impl<K: Exact, V: Drop, E: Drop> Begin<K, V, E> for ToInsert<K, V> {
    type Output = ();

    ghost start = { λ insert. Start.Insert insert.key insert.value };

    ghost named = { λ insert. None };

    ghost output = { λ named answer. Some tt };

    fn start(self) -> Result<Begun<K, V>, Self> {
        let ToInsert { key, value } = self;
        Ok(Begun::unnamed(Start::Insert { key, value }))
    }

    fn output(_key: Option<K>, answer: Answer<K, V, E>)
        ensures told { Some result ≡ Some tt }
    {
        drop(answer);
    }
}

impl<K, V, E, L, S, P> Cache<K, V, E, L, S, P>
where
    K: Eq + Hash + Exact,
    V: Exact,
    E: Exact,
    L: Listener<K, V>,
    S: BuildHasher + Drop,
    P: Fact<K, V>,
{
    /// Stores the value under the key, in place of the one that is there, if any.
    pub fn insert<'a>(&'a self, key: K, value: V) -> Insert<'a, K, V, E, L, S, P>
        requires fact { P.holds key value }
        ensures fresh { BeginsWith result.stage
            (λ insert. (insert.key ≡ key) × (insert.value ≡ value)) }
        ensures may { MayPoll result.stage }
        ensures suits { Suits K.eq (λ insert. Start.Insert insert.key insert.value) result.stage }
        // What it stores, tells and answers meets the fact.
        ensures so { MeetsFact K.eq P.holds (λ insert. None) NoAnswer Untested
            (called (rules_of result.cache.now) (λ insert. Start.Insert insert.key insert.value))
            result.stage result.named }
        ensures cache { result.cache.now ≡ self.now }
    {
        self.call(ToInsert { key, value })
    }
}
