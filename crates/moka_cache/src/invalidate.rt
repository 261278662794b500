//! Invalidating a key.
ghost use Rattle.std.specs.Prelude.{◌≡◌, Some, None};
ghost use Rattle.moka_cache.specs.Settings.{rules_of};
ghost use Rattle.moka_cache.specs.Starts.{called};
ghost use Rattle.moka_kept.specs.Taking.{NoAnswer};
ghost use Rattle.moka_cache.specs.Asked.{Untested};
ghost use Rattle.moka_cache.specs.Meets.{MeetsFact};
ghost use Rattle.moka_hist.specs.declared.events.Start.TheVariants as Start;
ghost use Rattle.moka_cache.specs.Suits.{Suits};
ghost use Rattle.moka_cache.specs.Stages.{BeginsWith, MayPoll};

use crate::asked::Nobody;
use crate::begin::{Begin, Begun};
use crate::cache::Cache;
use crate::call::CacheCall;
use moka_facts::{Anything, Fact};
use moka_hist::{Answer, Start};
use moka_kept::{Listener, NoListener};
use moka_room::FixedSeed;
use moka_values::Exact;
use std::hash::{BuildHasher, Hash};

/// What an invalidation takes out.
#[derive(Drop)]
pub struct ToInvalidate<'a, K> {
    key: &'a K,
}

/// Takes a key out, polled until that is logged, or the key known to be absent.
pub type Invalidate<'a, K, V, E, L = NoListener, S = FixedSeed, P = Anything> = CacheCall<
    'a,
    ToInvalidate<'a, K>,
    K,
    V,
    E,
    Nobody,
    L,
    S,
    P,
>;

impl<K: Exact, V: Drop, E: Drop> Begin<K, V, E> for ToInvalidate<'_, K> {
    type Output = ();

    ghost start = { λ invalidate. Start.Invalidate invalidate.key.now };

    ghost named = { λ invalidate. None };

    ghost output = { λ named answer. Some tt };

    fn start(self) -> Result<Begun<K, V>, Self> {
        match self.key.clone() {
            Ok(key) => Ok(Begun::unnamed(Start::Invalidate { key })),
            Err(_) => Err(self),
        }
    }

    fn output(_key: Option<K>, answer: Answer<K, V, E>)
        ensures told { Some result ≡ Some tt }
    {
        drop(answer);
    }
}

impl<K, V, E, L, S, P> Cache<K, V, E, L, S, P>
where
    K: Eq + Hash + Exact,
    V: Exact,
    E: Exact,
    L: Listener<K, V>,
    S: BuildHasher + Drop,
    P: Fact<K, V>,
{
    /// Takes the key out, if it is there.
    pub fn invalidate<'a>(&'a self, key: &'a K) -> Invalidate<'a, K, V, E, L, S, P>
        ensures fresh { BeginsWith result.stage (λ invalidate. invalidate.key.now ≡ key.now) }
        ensures may { MayPoll result.stage }
        ensures suits { Suits K.eq (λ invalidate. Start.Invalidate invalidate.key.now)
            result.stage }
        // What it stores, tells and answers meets the fact.
        ensures so { MeetsFact K.eq P.holds (λ invalidate. None) NoAnswer Untested
            (called (rules_of result.cache.now) (λ invalidate. Start.Invalidate invalidate.key.now))
            result.stage result.named }
        ensures cache { result.cache.now ≡ self.now }
    {
        self.call(ToInvalidate { key })
    }
}
