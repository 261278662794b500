//! Looks: they pass over the root, help no growth, and change nothing.

ghost use Rattle.std.specs.Prelude.{◌≡◌, ◌↔◌, ◌<◌, List, is_some, IfOk, IsOk, IsSome};
ghost use Rattle.std.specs.Option.{IfSome, option_map};
ghost use Rattle.moka_buckets.specs.Asking.{ListsCalls, ListsSegment};
ghost use Rattle.moka_buckets.specs.Views.{map_in, segment_for};
ghost use Rattle.moka_map.specs.Calls.{GivesOf, GivesThen};
ghost use Rattle.moka_map.specs.Maps.{Names, entries, segments_in};

use crate::HashMap;
use moka_hist::KeyList;
use moka_values::Exact;
use std::alloc::AllocError;
use std::hash::{BuildHasher, Hash};

impl<K: Eq + Hash + Drop, V: Drop, S: BuildHasher + Drop> HashMap<K, V, S> {
    /// Lends the pair of the key for which `eq` answers true, if it is stored.
    pub(crate) fn find<F: FnMut(&K) -> bool>(&self, hash: u64, eq: F) -> Option<(&K, &V)>
        requires callable { F.IsAlwaysCallable eq }
        requires one { (q : K) × Names
            S.BuildHasher S.Hasher.Hasher K.eq K.hash_input F.FnMut self.now hash eq q }
        ensures { (q : K) → Names
            S.BuildHasher S.Hasher.Hasher K.eq K.hash_input F.FnMut self.now hash eq q
            → option_map (λ p. (p.0.now, p.1.now)) result
            ≡ entries S.BuildHasher S.Hasher.Hasher K.eq K.hash_input self.now q }
    {
        match self.table.find_by(hash, eq) {
            None => None,
            Some((key, stored)) => Some((key, &stored.value)),
        }
    }

    /// Answers whether a key is stored for which `eq` answers true. The look takes no memory.
    pub fn contains_key<F: FnMut(&K) -> bool>(&self, hash: u64, eq: F) -> Result<bool, AllocError>
        requires callable { F.IsAlwaysCallable eq }
        requires one { (q : K) × Names
            S.BuildHasher S.Hasher.Hasher K.eq K.hash_input F.FnMut self.now hash eq q }
        ensures ok { IsOk result }
        ensures present { IfOk result (λ present. (q : K) → Names
            S.BuildHasher S.Hasher.Hasher K.eq K.hash_input F.FnMut self.now hash eq q
            → present
            ≡ is_some (entries S.BuildHasher S.Hasher.Hasher K.eq K.hash_input self.now q)) }
    {
        Ok(self.find(hash, eq).is_some())
    }

    /// Gives what the closure answers of the pair of the key for which `eq` answers true, or `None`
    /// where there is none. The look takes no memory.
    pub fn get_key_value_and<T, F: FnMut(&K) -> bool, W: FnOnce(&K, &V) -> T>(
        &self,
        hash: u64,
        eq: F,
        with_entry: W,
    ) -> Result<Option<T>, AllocError>
        requires callable { F.IsAlwaysCallable eq }
        requires with { W.IsAlwaysCallable with_entry }
        requires one { (q : K) × Names
            S.BuildHasher S.Hasher.Hasher K.eq K.hash_input F.FnMut self.now hash eq q }
        ensures ok { IsOk result }
        ensures gives { IfOk result (λ given. (q : K) → Names
            S.BuildHasher S.Hasher.Hasher K.eq K.hash_input F.FnMut self.now hash eq q
            → GivesOf W.FnOnce with_entry
            (entries S.BuildHasher S.Hasher.Hasher K.eq K.hash_input self.now q) given) }
    {
        match self.find(hash, eq) {
            None => Ok(None),
            Some((key, value)) => Ok(Some(with_entry(key, value))),
        }
    }

    /// Gives the closure's own answer of the pair of the key for which `eq` answers true, or `None`
    /// where there is no pair. The look takes no memory.
    pub fn get_key_value_and_then<T, F: FnMut(&K) -> bool, W: FnOnce(&K, &V) -> Option<T>>(
        &self,
        hash: u64,
        eq: F,
        with_entry: W,
    ) -> Result<Option<T>, AllocError>
        requires callable { F.IsAlwaysCallable eq }
        requires with { W.IsAlwaysCallable with_entry }
        requires one { (q : K) × Names
            S.BuildHasher S.Hasher.Hasher K.eq K.hash_input F.FnMut self.now hash eq q }
        ensures ok { IsOk result }
        ensures gives { IfOk result (λ given. (q : K) → Names
            S.BuildHasher S.Hasher.Hasher K.eq K.hash_input F.FnMut self.now hash eq q
            → GivesThen W.FnOnce with_entry
            (entries S.BuildHasher S.Hasher.Hasher K.eq K.hash_input self.now q) given) }
    {
        match self.find(hash, eq) {
            None => Ok(None),
            Some((key, value)) => Ok(with_entry(key, value)),
        }
    }
}

impl<K: Eq + Hash + Drop, V: Drop, S: BuildHasher + Drop> HashMap<K, V, S> {
    /// Lists what the closure makes of each key of the segment, each key once, or answers `None`
    /// exactly where there is no such segment.
    pub fn keys<T: Drop, F: FnMut(&K) -> T>(
        &self,
        segment: usize,
        with_key: F,
    ) -> Result<Option<KeyList<T>>, AllocError>
        requires { F.IsAlwaysCallable with_key }
        ensures there { IfOk result (λ made. IsSome made ↔ (segment < segments_in self.now)) }
        ensures calls { IfOk result (λ made. IfSome made (λ list. (keys : List K)
            × ListsCalls F.FnMut with_key keys list × ListsSegment K.eq
            (segment_for S.BuildHasher S.Hasher.Hasher K.eq K.hash_input self.now)
            (entries S.BuildHasher S.Hasher.Hasher K.eq K.hash_input self.now) segment keys)) }
    {
        match self.table.list_keys(segment, with_key)? {
            None => Ok(None),
            Some(made) => Ok(Some(KeyList::from_vec(made))),
        }
    }
}

impl<K: Eq + Hash + Drop, V: Exact + Drop, S: BuildHasher + Drop> HashMap<K, V, S> {
    /// Gives a clone of the value of the key for which `eq` answers true, if it is stored.
    pub fn get<F: FnMut(&K) -> bool>(&self, hash: u64, eq: F) -> Result<Option<V>, AllocError>
        requires callable { F.IsAlwaysCallable eq }
        requires one { (q : K) × Names
            S.BuildHasher S.Hasher.Hasher K.eq K.hash_input F.FnMut self.now hash eq q }
        ensures { IfOk result (λ value. (q : K) → Names
            S.BuildHasher S.Hasher.Hasher K.eq K.hash_input F.FnMut self.now hash eq q
            → value ≡ option_map (λ p. p.1)
            (entries S.BuildHasher S.Hasher.Hasher K.eq K.hash_input self.now q)) }
    {
        match self.find(hash, eq) {
            None => Ok(None),
            Some((_, value)) => Ok(Some(value.clone()?)),
        }
    }
}

impl<K: Eq + Hash + Exact, V: Exact, S: BuildHasher + Drop> HashMap<K, V, S> {
    /// Lists clones of the keys of the segment, or answers `None` where there is no such segment.
    pub(crate) fn copies(&self, segment: usize) -> Result<Option<Vec<K>>, AllocError>
        ensures there { IfOk result (λ keys. IsSome keys ↔ (segment < segments_in self.now)) }
        ensures lists { IfOk result (λ keys. IfSome keys (λ list. ListsSegment K.eq
            (segment_for S.BuildHasher S.Hasher.Hasher K.eq K.hash_input self.now)
            (map_in S.BuildHasher S.Hasher.Hasher K.eq K.hash_input self.now)
            segment list.items)) }
    {
        self.table.copy_keys(segment)
    }

    /// Gives a clone of the pair under the key, if there is one.
    pub(crate) fn pair_of(&self, key: &K) -> Result<Option<(K, V)>, AllocError>
        ensures { IfOk result (λ pair. pair
            ≡ entries S.BuildHasher S.Hasher.Hasher K.eq K.hash_input self.now key.now) }
    {
        match self.find(self.hash(key), |other| *key == *other) {
            None => Ok(None),
            Some((key, value)) => Ok(Some((key.clone()?, value.clone()?))),
        }
    }
}
