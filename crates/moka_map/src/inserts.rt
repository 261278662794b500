//! Inserts.

ghost use Rattle.std.specs.Prelude.{◌≡◌, IfOk, OnErr, OnOk};
ghost use Rattle.std.specs.Option.{MatchOption, option_map};
ghost use Rattle.moka_map.specs.Maps.{Puts, Stays, entries, hash_for};
ghost use Rattle.moka_map.specs.Calls.{GivesOf, IsMade};

use crate::HashMap;
use crate::answers::{given_of, value_in};
use moka_values::Exact;
use std::alloc::AllocError;
use std::hash::{BuildHasher, Hash};

impl<K: Eq + Hash + Exact, V: Exact, S: BuildHasher + Drop> HashMap<K, V, S> {
    /// Stores the pair. Where a pair stood under its key, gives what the closure answers of that
    /// former pair. On want of memory the map drops the pair handed in, and stays as it was.
    pub fn insert_entry_and<T, F: FnOnce(&K, &V) -> T>(
        &mut self,
        key: K,
        hash: u64,
        value: V,
        with_previous_entry: F,
    ) -> Result<Option<T>, AllocError>
        requires hashed { hash ≡ hash_for S.BuildHasher S.Hasher.Hasher K.hash_input
            self.old key }
        requires callable { F.IsAlwaysCallable with_previous_entry }
        ensures previous { IfOk result (GivesOf F.FnOnce with_previous_entry
            (entries S.BuildHasher S.Hasher.Hasher K.eq K.hash_input self.old key)) }
        ensures puts { OnOk result (Puts S.BuildHasher S.Hasher.Hasher K.eq K.hash_input
            key value self.old self.new) }
        ensures err { OnErr result (Stays S.BuildHasher S.Hasher.Hasher K.eq K.hash_input
            self.old self.new) }
    {
        let before = self.put(key, hash, value)?;
        Ok(given_of(before, with_previous_entry))
    }

    /// Stores the pair where its key is absent, and answers `None`. Where the key is present the
    /// map stays, and the caller gets a clone of the stored value. On want of memory the map drops
    /// the pair handed in, and stays as it was.
    pub fn insert_if_not_present(
        &mut self,
        key: K,
        hash: u64,
        value: V,
    ) -> Result<Option<V>, AllocError>
        requires hashed { hash ≡ hash_for S.BuildHasher S.Hasher.Hasher K.hash_input
            self.old key }
        ensures present { IfOk result (λ there. there ≡ option_map (λ p. p.1)
            (entries S.BuildHasher S.Hasher.Hasher K.eq K.hash_input self.old key)) }
        ensures puts { IfOk result (λ there. MatchOption there
            (Puts S.BuildHasher S.Hasher.Hasher K.eq K.hash_input key value self.old self.new)
            (λ v. Stays S.BuildHasher S.Hasher.Hasher K.eq K.hash_input self.old self.new)) }
        ensures err { OnErr result (Stays S.BuildHasher S.Hasher.Hasher K.eq K.hash_input
            self.old self.new) }
    {
        if let Some(there) = self.get(hash, |other| key == *other)? {
            return Ok(Some(there));
        }
        self.put(key, hash, value)?;
        Ok(None)
    }

    /// Stores a value under the key: what `on_insert` makes where the key is absent, or what
    /// `on_modify` makes of the stored pair where it is present. The key handed in takes the place
    /// of the stored one. Gives what `with_old_entry` answers of the former pair. On want of memory
    /// the map stays as it was.
    pub fn insert_with_or_modify_entry_and<
        T,
        I: FnMut() -> V,
        M: FnMut(&K, &V) -> V,
        W: FnOnce(&K, &V) -> T,
    >(
        &mut self,
        key: K,
        hash: u64,
        on_insert: I,
        on_modify: M,
        with_old_entry: W,
    ) -> Result<Option<T>, AllocError>
        requires hashed { hash ≡ hash_for S.BuildHasher S.Hasher.Hasher K.hash_input
            self.old key }
        requires insert { I.IsAlwaysCallable on_insert }
        requires modify { M.IsAlwaysCallable on_modify }
        requires with { W.IsAlwaysCallable with_old_entry }
        ensures previous { IfOk result (GivesOf W.FnOnce with_old_entry
            (entries S.BuildHasher S.Hasher.Hasher K.eq K.hash_input self.old key)) }
        ensures puts { OnOk result ((v : V) × IsMade I.FnMut on_insert M.FnMut on_modify
            (entries S.BuildHasher S.Hasher.Hasher K.eq K.hash_input self.old key) v
            × Puts S.BuildHasher S.Hasher.Hasher K.eq K.hash_input key v self.old self.new) }
        ensures err { OnErr result (Stays S.BuildHasher S.Hasher.Hasher K.eq K.hash_input
            self.old self.new) }
    {
        let value = self.made_for(&key, hash, on_insert, on_modify);
        let before = self.put(key, hash, value)?;
        Ok(given_of(before, with_old_entry))
    }

    /// Stores a value under the key: what `on_insert` makes where the key is absent, or what
    /// `on_modify` makes of the stored pair where it is present. The key handed in takes the place
    /// of the stored one. Gives the former value. On want of memory the map stays as it was.
    pub fn insert_with_or_modify<I: FnMut() -> V, M: FnMut(&K, &V) -> V>(
        &mut self,
        key: K,
        hash: u64,
        on_insert: I,
        on_modify: M,
    ) -> Result<Option<V>, AllocError>
        requires hashed { hash ≡ hash_for S.BuildHasher S.Hasher.Hasher K.hash_input
            self.old key }
        requires insert { I.IsAlwaysCallable on_insert }
        requires modify { M.IsAlwaysCallable on_modify }
        ensures previous { IfOk result (λ value. value ≡ option_map (λ p. p.1)
            (entries S.BuildHasher S.Hasher.Hasher K.eq K.hash_input self.old key)) }
        ensures puts { OnOk result ((v : V) × IsMade I.FnMut on_insert M.FnMut on_modify
            (entries S.BuildHasher S.Hasher.Hasher K.eq K.hash_input self.old key) v
            × Puts S.BuildHasher S.Hasher.Hasher K.eq K.hash_input key v self.old self.new) }
        ensures err { OnErr result (Stays S.BuildHasher S.Hasher.Hasher K.eq K.hash_input
            self.old self.new) }
    {
        let value = self.made_for(&key, hash, on_insert, on_modify);
        let before = self.put(key, hash, value)?;
        Ok(value_in(before))
    }

    // The value that is to be stored under the key.
    fn made_for<I: FnMut() -> V, M: FnMut(&K, &V) -> V>(
        &self,
        key: &K,
        hash: u64,
        mut on_insert: I,
        mut on_modify: M,
    ) -> V
        requires hashed { hash ≡ hash_for S.BuildHasher S.Hasher.Hasher K.hash_input
            self.now key.now }
        requires insert { I.IsAlwaysCallable on_insert }
        requires modify { M.IsAlwaysCallable on_modify }
        ensures { IsMade I.FnMut on_insert M.FnMut on_modify
            (entries S.BuildHasher S.Hasher.Hasher K.eq K.hash_input self.now key.now) result }
    {
        match self.find(hash, |other| *key == *other) {
            None => on_insert(),
            Some((there, value)) => on_modify(there, value),
        }
    }
}
