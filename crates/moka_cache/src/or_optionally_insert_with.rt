//! Loading an entry that there may be.
ghost use Rattle.std.specs.Prelude.{◌≡◌, Some, IsSome, IfOk, IfSome};
ghost use Rattle.moka_cache.specs.Asked.{Accords, Untested};
ghost use Rattle.moka_cache.specs.Meets.{GivesSo, MeetsFact};
ghost use Rattle.moka_hist.specs.declared.events.Start.TheVariants as Start;
ghost use Rattle.moka_cache.specs.Entries.{optionally_loaded_entry_in};
ghost use Rattle.moka_cache.specs.Inits.{GivesOption};
ghost use Rattle.moka_cache.specs.Keys.{key_of};
ghost use Rattle.moka_cache.specs.Settings.{rules_of};
ghost use Rattle.moka_cache.specs.Stages.{BeginsWith, MayPoll};
ghost use Rattle.moka_cache.specs.Starts.{called};
ghost use Rattle.moka_cache.specs.Suits.{Tells};

use crate::begin::{Begin, Begun};
use crate::by_init::ByOptionalInit;
use crate::call::CacheCall;
use crate::entry::EntrySelector;
use crate::errors::RetriesExhausted;
use crate::init::Init;
use crate::key::CallKey;
use crate::or_insert_with::loaded_entry;
use moka_facts::{Anything, Fact};
use moka_hist::{Answer, Entry, Start};
use moka_kept::{Listener, NoListener};
use moka_room::FixedSeed;
use moka_values::Exact;
use std::hash::{BuildHasher, Hash};

/// What an optional load of an entry looks up, and stores where it is absent and its initializer
/// gives it.
#[derive(Drop)]
pub struct ToLoadEntryOptionally<'a, K> {
    key: CallKey<'a, K>,
}

/// Looks the value of a key up, or loads it, if there is one, polled until that is known.
pub type OrOptionallyInsertWith<'a, K, V, E, I, L = NoListener, S = FixedSeed, P = Anything> =
    CacheCall<'a, ToLoadEntryOptionally<'a, K>, K, V, E, ByOptionalInit<I>, L, S, P>;

impl<K: Exact, V: Drop, E: Drop> Begin<K, V, E> for ToLoadEntryOptionally<'_, K> {
    type Output = Result<Option<Entry<K, V>>, RetriesExhausted>;

    ghost start = { λ load. Start.Optional (key_of load.key) };

    ghost named = { λ load. Some (key_of load.key) };

    ghost output = { optionally_loaded_entry_in };

    fn start(self) -> Result<Begun<K, V>, Self> {
        match self.key.into_two() {
            Ok((key, named)) => Ok(Begun::named(Start::Optional { key }, named)),
            Err(key) => Err(ToLoadEntryOptionally { key }),
        }
    }

    fn output(
        key: Option<K>,
        answer: Answer<K, V, E>,
    ) -> Result<Option<Entry<K, V>>, RetriesExhausted>
        requires { IsSome (optionally_loaded_entry_in key answer) }
        ensures told { Some result ≡ optionally_loaded_entry_in key answer }
    {
        match answer {
            Answer::Loaded { value, fresh } => Ok(Some(loaded_entry(key, value, fresh))),
            Answer::Nothing => Ok(None),
            Answer::RetriesExhausted => Err(RetriesExhausted),
            _ => unreachable!(),
        }
    }
}

impl<'a, K, V, E, L, S, P> EntrySelector<'a, K, V, E, L, S, P>
where
    K: Eq + Hash + Exact,
    V: Exact,
    E: Exact,
    L: Listener<K, V>,
    S: BuildHasher + Drop,
    P: Fact<K, V>,
{
    /// Looks the key up, or loads its value, as `optionally_get_with` does. The entry is fresh
    /// where the initializer of this call gave the value.
    pub fn or_optionally_insert_with<I: Init<Option<V>>>(
        self,
        init: I,
    ) -> OrOptionallyInsertWith<'a, K, V, E, I, L, S, P>
        requires fact { (value : V) → I.gives init (Some value) → P.holds (key_of self.key)
            value }
        ensures fresh { BeginsWith result.stage (λ load. load.key ≡ self.entry.key) }
        ensures may { MayPoll result.stage }
        ensures init { result.asked.init ≡ Some init }
        ensures tells { Tells K.eq (GivesOption I.gives result.asked)
            (called (rules_of result.cache.now) (λ load. Start.Optional (key_of load.key)))
            optionally_loaded_entry_in result.stage }
        // What it stores, tells and answers meets the fact.
        ensures so { MeetsFact K.eq P.holds (λ load. Some (key_of load.key))
            (GivesOption I.gives result.asked) Untested
            (called (rules_of result.cache.now) (λ load. Start.Optional (key_of load.key)))
            result.stage result.named }
        ensures gives { GivesSo K.eq P.holds (Accords (GivesOption I.gives result.asked) Untested)
            (rules_of result.cache.now) (λ load. Start.Optional (key_of load.key))
            (λ load. Some (key_of load.key)) optionally_loaded_entry_in result.stage result.named
            (λ told. IfOk told (λ found. IfSome found
            (λ entry. P.holds (key_of self.entry.key) entry.value))) }
        ensures cache { result.cache.now ≡ self.entry.cache.now }
    {
        moka_shapes::loads_tell::<K, V, E>();
        let EntrySelector { cache, key } = self;
        cache.call_asking(
            ToLoadEntryOptionally { key },
            ByOptionalInit { init: Some(init) },
        )
    }
}
