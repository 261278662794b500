//! Storing a value where there is none.
ghost use Rattle.std.specs.Prelude.{◌≡◌, Some, IsSome};
ghost use Rattle.moka_cache.specs.Asked.{Accords, Untested};
ghost use Rattle.moka_cache.specs.Meets.{GivesSo, MeetsFact};
ghost use Rattle.moka_hist.specs.declared.events.Start.TheVariants as Start;
ghost use Rattle.moka_cache.specs.Entries.{entry_in};
ghost use Rattle.moka_cache.specs.Keys.{key_of};
ghost use Rattle.moka_kept.specs.Taking.{NoAnswer};
ghost use Rattle.moka_cache.specs.Settings.{rules_of};
ghost use Rattle.moka_cache.specs.Stages.{BeginsWith, MayPoll};
ghost use Rattle.moka_cache.specs.Starts.{called};
ghost use Rattle.moka_cache.specs.Suits.{Suits, Tells};

use crate::asked::Nobody;
use crate::begin::{Begin, Begun};
use crate::call::CacheCall;
use crate::entry::EntrySelector;
use crate::key::CallKey;
use crate::or_insert_with::loaded_entry;
use moka_facts::{Anything, Fact};
use moka_hist::{Answer, Entry, Start};
use moka_kept::{Listener, NoListener};
use moka_room::FixedSeed;
use moka_values::Exact;
use std::hash::{BuildHasher, Hash};

/// What is stored where a key has no value.
#[derive(Drop)]
pub struct ToInsertEntry<'a, K, V> {
    key: CallKey<'a, K>,
    value: V,
}

/// Looks the value of a key up, or stores one, polled until that is logged.
pub type OrInsert<'a, K, V, E, L = NoListener, S = FixedSeed, P = Anything> = CacheCall<
    'a,
    ToInsertEntry<'a, K, V>,
    K,
    V,
    E,
    Nobody,
    L,
    S,
    P,
>;

impl<K: Exact, V: Drop, E: Drop> Begin<K, V, E> for ToInsertEntry<'_, K, V> {
    type Output = Entry<K, V>;

    ghost start = { λ insert. Start.OrInsert (key_of insert.key) insert.value };

    ghost named = { λ insert. Some (key_of insert.key) };

    ghost output = { entry_in };

    fn start(self) -> Result<Begun<K, V>, Self> {
        let ToInsertEntry { key, value } = self;
        match key.into_two() {
            Ok((key, named)) => Ok(Begun::named(Start::OrInsert { key, value }, named)),
            Err(key) => Err(ToInsertEntry { key, value }),
        }
    }

    fn output(key: Option<K>, answer: Answer<K, V, E>) -> Entry<K, V>
        requires { IsSome (entry_in key answer) }
        ensures told { Some result ≡ entry_in key answer }
    {
        match answer {
            Answer::Loaded { value, fresh } => loaded_entry(key, value, fresh),
            _ => unreachable!(),
        }
    }
}

impl<'a, K, V, E, L, S, P> EntrySelector<'a, K, V, E, L, S, P>
where
    K: Eq + Hash + Exact,
    V: Exact,
    E: Exact,
    L: Listener<K, V>,
    S: BuildHasher + Drop,
    P: Fact<K, V>,
{
    /// Looks the key up, and stores the value where it is absent. The entry is fresh where that was
    /// stored. Of two such calls that both find nothing each stores its own, the later in the place
    /// of the earlier.
    pub fn or_insert(self, value: V) -> OrInsert<'a, K, V, E, L, S, P>
        requires fact { P.holds (key_of self.key) value }
        ensures fresh { BeginsWith result.stage
            (λ insert. (insert.key ≡ self.entry.key) × (insert.value ≡ value)) }
        ensures may { MayPoll result.stage }
        ensures suits { Suits K.eq (λ insert. Start.OrInsert (key_of insert.key) insert.value)
            result.stage }
        ensures tells { Tells K.eq NoAnswer (called (rules_of result.cache.now)
            (λ insert. Start.OrInsert (key_of insert.key) insert.value)) entry_in result.stage }
        // What it stores, tells and answers meets the fact.
        ensures so { MeetsFact K.eq P.holds (λ insert. Some (key_of insert.key)) NoAnswer Untested
            (called (rules_of result.cache.now)
            (λ insert. Start.OrInsert (key_of insert.key) insert.value))
            result.stage result.named }
        ensures gives { GivesSo K.eq P.holds (Accords NoAnswer Untested)
            (rules_of result.cache.now) (λ insert. Start.OrInsert (key_of insert.key) insert.value)
            (λ insert. Some (key_of insert.key)) entry_in result.stage result.named
            (λ entry. P.holds (key_of self.entry.key) entry.value) }
        ensures cache { result.cache.now ≡ self.entry.cache.now }
    {
        moka_laws::shapes_fit::<K, V, E>();
        let EntrySelector { cache, key } = self;
        cache.call(ToInsertEntry { key, value })
    }
}

impl<'a, K, V, E, L, S, P> EntrySelector<'a, K, V, E, L, S, P>
where
    K: Eq + Hash + Exact,
    V: Exact + Default + Drop,
    E: Exact,
    L: Listener<K, V>,
    S: BuildHasher + Drop,
    P: Fact<K, V>,
{
    /// Looks the key up, and stores the default value where it is absent, as `or_insert` does. The
    /// default is made now.
    pub fn or_default(self) -> OrInsert<'a, K, V, E, L, S, P>
        requires fact { (value : V) → V.is_default value → P.holds (key_of self.key) value }
        ensures fresh { BeginsWith result.stage
            (λ insert. (insert.key ≡ self.entry.key) × V.is_default insert.value) }
        ensures may { MayPoll result.stage }
        ensures suits { Suits K.eq (λ insert. Start.OrInsert (key_of insert.key) insert.value)
            result.stage }
        ensures tells { Tells K.eq NoAnswer (called (rules_of result.cache.now)
            (λ insert. Start.OrInsert (key_of insert.key) insert.value)) entry_in result.stage }
        // What it stores, tells and answers meets the fact.
        ensures so { MeetsFact K.eq P.holds (λ insert. Some (key_of insert.key)) NoAnswer Untested
            (called (rules_of result.cache.now)
            (λ insert. Start.OrInsert (key_of insert.key) insert.value))
            result.stage result.named }
        ensures gives { GivesSo K.eq P.holds (Accords NoAnswer Untested)
            (rules_of result.cache.now) (λ insert. Start.OrInsert (key_of insert.key) insert.value)
            (λ insert. Some (key_of insert.key)) entry_in result.stage result.named
            (λ entry. P.holds (key_of self.entry.key) entry.value) }
        ensures cache { result.cache.now ≡ self.entry.cache.now }
    {
        self.or_insert(V::default())
    }
}
