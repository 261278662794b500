//! Loading an entry, which may fail.
ghost use Rattle.std.specs.Prelude.{◌≡◌, Some, IsSome, IfOk, Ok};
ghost use Rattle.moka_cache.specs.Asked.{Accords, Untested};
ghost use Rattle.moka_cache.specs.Meets.{GivesSo, MeetsFact};
ghost use Rattle.moka_hist.specs.declared.events.Start.TheVariants as Start;
ghost use Rattle.moka_cache.specs.Entries.{try_loaded_entry_in};
ghost use Rattle.moka_cache.specs.Inits.{GivesResult};
ghost use Rattle.moka_cache.specs.Keys.{key_of};
ghost use Rattle.moka_cache.specs.Settings.{rules_of};
ghost use Rattle.moka_cache.specs.Stages.{BeginsWith, MayPoll};
ghost use Rattle.moka_cache.specs.Starts.{called};
ghost use Rattle.moka_cache.specs.Suits.{Tells};

use crate::begin::{Begin, Begun};
use crate::by_init::ByTryInit;
use crate::call::CacheCall;
use crate::entry::EntrySelector;
use crate::errors::LoadError;
use crate::init::Init;
use crate::key::CallKey;
use crate::or_insert_with::loaded_entry;
use moka_facts::{Anything, Fact};
use moka_hist::{Answer, Entry, Start};
use moka_kept::{Listener, NoListener};
use moka_room::FixedSeed;
use moka_values::Exact;
use std::hash::{BuildHasher, Hash};

/// What a load of an entry looks up that may fail, and stores where it is absent and its
/// initializer gives it.
#[derive(Drop)]
pub struct ToTryLoadEntry<'a, K> {
    key: CallKey<'a, K>,
}

/// Looks the value of a key up, or loads it, polled until it is there, or the load has failed.
pub type OrTryInsertWith<'a, K, V, E, I, L = NoListener, S = FixedSeed, P = Anything> = CacheCall<
    'a,
    ToTryLoadEntry<'a, K>,
    K,
    V,
    E,
    ByTryInit<I>,
    L,
    S,
    P,
>;

impl<K: Exact, V: Drop, E: Drop> Begin<K, V, E> for ToTryLoadEntry<'_, K> {
    type Output = Result<Entry<K, V>, LoadError<E>>;

    ghost start = { λ load. Start.Try (key_of load.key) };

    ghost named = { λ load. Some (key_of load.key) };

    ghost output = { try_loaded_entry_in };

    fn start(self) -> Result<Begun<K, V>, Self> {
        match self.key.into_two() {
            Ok((key, named)) => Ok(Begun::named(Start::Try { key }, named)),
            Err(key) => Err(ToTryLoadEntry { key }),
        }
    }

    fn output(key: Option<K>, answer: Answer<K, V, E>) -> Result<Entry<K, V>, LoadError<E>>
        requires { IsSome (try_loaded_entry_in key answer) }
        ensures told { Some result ≡ try_loaded_entry_in key answer }
    {
        match answer {
            Answer::Loaded { value, fresh } => Ok(loaded_entry(key, value, fresh)),
            Answer::InitErr(error) => Err(LoadError::Init(error)),
            Answer::RetriesExhausted => Err(LoadError::RetriesExhausted),
            _ => unreachable!(),
        }
    }
}

impl<'a, K, V, E, L, S, P> EntrySelector<'a, K, V, E, L, S, P>
where
    K: Eq + Hash + Exact,
    V: Exact,
    E: Exact,
    L: Listener<K, V>,
    S: BuildHasher + Drop,
    P: Fact<K, V>,
{
    /// Looks the key up, or loads its value, as `try_get_with` does. The entry is fresh where the
    /// initializer of this call gave the value.
    pub fn or_try_insert_with<I: Init<Result<V, E>>>(
        self,
        init: I,
    ) -> OrTryInsertWith<'a, K, V, E, I, L, S, P>
        requires fact { (value : V) → I.gives init (Ok value) → P.holds (key_of self.key)
            value }
        ensures fresh { BeginsWith result.stage (λ load. load.key ≡ self.entry.key) }
        ensures may { MayPoll result.stage }
        ensures init { result.asked.init ≡ Some init }
        ensures tells { Tells K.eq (GivesResult I.gives result.asked)
            (called (rules_of result.cache.now) (λ load. Start.Try (key_of load.key)))
            try_loaded_entry_in result.stage }
        // What it stores, tells and answers meets the fact.
        ensures so { MeetsFact K.eq P.holds (λ load. Some (key_of load.key))
            (GivesResult I.gives result.asked) Untested
            (called (rules_of result.cache.now) (λ load. Start.Try (key_of load.key)))
            result.stage result.named }
        ensures gives { GivesSo K.eq P.holds (Accords (GivesResult I.gives result.asked) Untested)
            (rules_of result.cache.now) (λ load. Start.Try (key_of load.key))
            (λ load. Some (key_of load.key)) try_loaded_entry_in result.stage result.named
            (λ told. IfOk told (λ entry. P.holds (key_of self.entry.key) entry.value)) }
        ensures cache { result.cache.now ≡ self.entry.cache.now }
    {
        moka_shapes::loads_tell::<K, V, E>();
        let EntrySelector { cache, key } = self;
        cache.call_asking(ToTryLoadEntry { key }, ByTryInit { init: Some(init) })
    }
}
