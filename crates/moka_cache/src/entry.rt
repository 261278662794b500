//! Calls by an entry of a key.
ghost use Rattle.std.specs.Prelude.{◌≡◌};
ghost use Rattle.moka_cache.specs.Keys.{key_of};

use crate::cache::Cache;
use crate::key::CallKey;
use moka_facts::{Anything, Fact};
use moka_kept::{Listener, NoListener};
use moka_room::FixedSeed;
use moka_values::Exact;
use std::hash::{BuildHasher, Hash};

/// A key of a cache that a call is to be made for. Each of its calls takes it, and gives the state
/// of the call. What a call answers has this key, also where an equal one is stored.
#[derive(Drop)]
pub struct EntrySelector<
    'a,
    K: Eq + Hash,
    V,
    E,
    L = NoListener,
    S: BuildHasher = FixedSeed,
    P: Fact<K, V> = Anything,
> {
    pub(crate) cache: &'a Cache<K, V, E, L, S, P>,
    pub(crate) key: CallKey<'a, K>,
}

/// A selector of an owned key.
pub type OwnedKeyEntrySelector<'a, K, V, E, L = NoListener, S = FixedSeed, P = Anything> =
    EntrySelector<'a, K, V, E, L, S, P>;

/// A selector of a borrowed key, which its call copies.
pub type RefKeyEntrySelector<'a, K, V, E, L = NoListener, S = FixedSeed, P = Anything> =
    EntrySelector<'a, K, V, E, L, S, P>;

impl<K, V, E, L, S, P> Cache<K, V, E, L, S, P>
where
    K: Eq + Hash + Exact,
    V: Exact,
    E: Exact,
    L: Listener<K, V>,
    S: BuildHasher + Drop,
    P: Fact<K, V>,
{
    /// Selects the entry of the key. That does nothing.
    pub fn entry<'a>(&'a self, key: K) -> OwnedKeyEntrySelector<'a, K, V, E, L, S, P>
        ensures key { key_of result.key ≡ key }
        ensures cache { result.cache.now ≡ self.now }
    {
        EntrySelector {
            cache: self,
            key: CallKey::Owned(key),
        }
    }

    /// Selects the entry of a borrowed key, which its call copies. That does nothing.
    pub fn entry_by_ref<'a>(&'a self, key: &'a K) -> RefKeyEntrySelector<'a, K, V, E, L, S, P>
        ensures key { key_of result.key ≡ key.now }
        ensures cache { result.cache.now ≡ self.now }
    {
        EntrySelector {
            cache: self,
            key: CallKey::Lent(key),
        }
    }
}
