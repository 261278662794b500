//! Loading an entry.
ghost use Rattle.std.specs.Prelude.{◌≡◌, Some, None, IsSome, false, IfOk};
ghost use Rattle.std.specs.Fn.{CalledAt};
ghost use Rattle.moka_cache.specs.Asked.{Accords, MayAnswer, Untested};
ghost use Rattle.moka_cache.specs.Meets.{GivesSo, MeetsFact};
ghost use Rattle.moka_hist.specs.declared.events.Start.TheVariants as Start;
ghost use Rattle.moka_cache.specs.Entries.{loaded_entry_in};
ghost use Rattle.moka_cache.specs.Inits.{GivesValue};
ghost use Rattle.moka_cache.specs.Keys.{key_of};
ghost use Rattle.moka_cache.specs.Settings.{rules_of};
ghost use Rattle.moka_cache.specs.Stages.{BeginsWith, MayPoll};
ghost use Rattle.moka_cache.specs.Starts.{called};
ghost use Rattle.moka_cache.specs.Suits.{Tells};

use crate::begin::{Begin, Begun};
use crate::by_init::{ByInit, ByInitIf};
use crate::call::CacheCall;
use crate::entry::EntrySelector;
use crate::errors::RetriesExhausted;
use crate::init::Init;
use crate::key::CallKey;
use moka_facts::{Anything, Fact};
use moka_hist::{Answer, Entry, Start};
use moka_kept::{Listener, NoListener};
use moka_room::FixedSeed;
use moka_values::Exact;
use std::hash::{BuildHasher, Hash};

/// What a load of an entry looks up, and stores where it is absent.
#[derive(Drop)]
pub struct ToLoadEntry<'a, K> {
    key: CallKey<'a, K>,
    /// The number of its replace test, if it has one: 0, since a state has one at most.
    replace: Option<u64>,
}

/// Looks the value of a key up, or loads it, polled until it is there.
pub type OrInsertWith<'a, K, V, E, I, L = NoListener, S = FixedSeed, P = Anything> = CacheCall<
    'a,
    ToLoadEntry<'a, K>,
    K,
    V,
    E,
    ByInit<I>,
    L,
    S,
    P,
>;

/// Looks the value of a key up, or loads it where it is absent or a replace test holds on it,
/// polled until it is there.
pub type OrInsertWithIf<'a, K, V, E, I, F, L = NoListener, S = FixedSeed, P = Anything> = CacheCall<
    'a,
    ToLoadEntry<'a, K>,
    K,
    V,
    E,
    ByInitIf<I, F>,
    L,
    S,
    P,
>;

impl<K: Exact, V: Drop, E: Drop> Begin<K, V, E> for ToLoadEntry<'_, K> {
    type Output = Result<Entry<K, V>, RetriesExhausted>;

    ghost start = { λ load. Start.GetWith (key_of load.key) load.replace };

    ghost named = { λ load. Some (key_of load.key) };

    ghost output = { loaded_entry_in };

    fn start(self) -> Result<Begun<K, V>, Self> {
        let ToLoadEntry { key, replace } = self;
        match key.into_two() {
            Ok((key, named)) => Ok(Begun::named(Start::GetWith { key, replace }, named)),
            Err(key) => Err(ToLoadEntry { key, replace }),
        }
    }

    fn output(key: Option<K>, answer: Answer<K, V, E>) -> Result<Entry<K, V>, RetriesExhausted>
        requires { IsSome (loaded_entry_in key answer) }
        ensures told { Some result ≡ loaded_entry_in key answer }
    {
        match answer {
            Answer::Loaded { value, fresh } => Ok(loaded_entry(key, value, fresh)),
            Answer::RetriesExhausted => Err(RetriesExhausted),
            _ => unreachable!(),
        }
    }
}

impl<'a, K, V, E, L, S, P> EntrySelector<'a, K, V, E, L, S, P>
where
    K: Eq + Hash + Exact,
    V: Exact,
    E: Exact,
    L: Listener<K, V>,
    S: BuildHasher + Drop,
    P: Fact<K, V>,
{
    /// Looks the key up, or loads its value, as `get_with` does. The entry is fresh where the
    /// initializer of this call gave the value.
    pub fn or_insert_with<I: Init<V>>(self, init: I) -> OrInsertWith<'a, K, V, E, I, L, S, P>
        requires fact { (value : V) → I.gives init value → P.holds (key_of self.key) value }
        ensures fresh { BeginsWith result.stage
            (λ load. (load.key ≡ self.entry.key) × (load.replace ≡ None)) }
        ensures may { MayPoll result.stage }
        ensures init { result.asked.init ≡ Some init }
        ensures tells { Tells K.eq (GivesValue I.gives result.asked) (called
            (rules_of result.cache.now) (λ load. Start.GetWith (key_of load.key) load.replace))
            loaded_entry_in result.stage }
        // What it stores, tells and answers meets the fact.
        ensures so { MeetsFact K.eq P.holds (λ load. Some (key_of load.key))
            (GivesValue I.gives result.asked) Untested
            (called (rules_of result.cache.now)
            (λ load. Start.GetWith (key_of load.key) load.replace))
            result.stage result.named }
        ensures gives { GivesSo K.eq P.holds (Accords (GivesValue I.gives result.asked) Untested)
            (rules_of result.cache.now) (λ load. Start.GetWith (key_of load.key) load.replace)
            (λ load. Some (key_of load.key)) loaded_entry_in result.stage result.named
            (λ told. IfOk told (λ entry. P.holds (key_of self.entry.key) entry.value)) }
        ensures cache { result.cache.now ≡ self.entry.cache.now }
    {
        moka_shapes::loads_tell::<K, V, E>();
        let EntrySelector { cache, key } = self;
        let replace = None;
        cache.call_asking(ToLoadEntry { key, replace }, ByInit { init: Some(init) })
    }

    /// Looks the key up, or loads its value, as `get_with_if` does. The entry is fresh where the
    /// initializer of this call gave the value.
    pub fn or_insert_with_if<I: Init<V>, F: FnMut(&V) -> bool + Drop>(
        self,
        init: I,
        replace_if: F,
    ) -> OrInsertWithIf<'a, K, V, E, I, F, L, S, P>
        requires fact { (value : V) → I.gives init value → P.holds (key_of self.key) value }
        ensures fresh { BeginsWith result.stage
            (λ load. (load.key ≡ self.entry.key) × IsSome load.replace) }
        ensures may { MayPoll result.stage }
        ensures init { result.asked.init.init ≡ Some init }
        ensures test { result.asked.replace_if ≡ replace_if }
        ensures tells { Tells K.eq (GivesValue I.gives result.asked.init) (called
            (rules_of result.cache.now) (λ load. Start.GetWith (key_of load.key) load.replace))
            loaded_entry_in result.stage }
        // What it stores, tells and answers meets the fact.
        ensures so { MeetsFact K.eq P.holds (λ load. Some (key_of load.key))
            (GivesValue I.gives result.asked.init)
            (MayAnswer (CalledAt F.FnMut) result.asked.replace_if)
            (called (rules_of result.cache.now)
            (λ load. Start.GetWith (key_of load.key) load.replace))
            result.stage result.named }
        ensures gives { GivesSo K.eq P.holds
            (Accords (GivesValue I.gives result.asked.init)
            (MayAnswer (CalledAt F.FnMut) result.asked.replace_if))
            (rules_of result.cache.now) (λ load. Start.GetWith (key_of load.key) load.replace)
            (λ load. Some (key_of load.key)) loaded_entry_in result.stage result.named
            (λ told. IfOk told (λ entry. P.holds (key_of self.entry.key) entry.value)) }
        ensures cache { result.cache.now ≡ self.entry.cache.now }
    {
        moka_shapes::loads_tell::<K, V, E>();
        let EntrySelector { cache, key } = self;
        let replace = Some(0);
        let init = ByInit { init: Some(init) };
        cache.call_asking(ToLoadEntry { key, replace }, ByInitIf { init, replace_if })
    }
}

/// The entry of this key with the value of a load, which is never said to replace another.
pub(crate) fn loaded_entry<K, V>(named: Option<K>, value: V, fresh: bool) -> Entry<K, V>
    ensures { result ≡ record { key = named; value = value; fresh = fresh; replaced = false } }
{
    Entry {
        key: named,
        value,
        fresh,
        replaced: false,
    }
}
