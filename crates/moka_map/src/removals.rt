//! Removals.

ghost use Rattle.std.specs.Prelude.{◌≡◌, ℕ, true, IfOk, OnErr, Option, Some};
ghost use Rattle.std.specs.Option.{MatchOption, option_map};
ghost use Rattle.moka_map.specs.Calls.{GivesOf, Makes, Spares};
ghost use Rattle.moka_map.specs.Maps.{Names, Removes, Stays, TakesWhere, entries};

use crate::HashMap;
use crate::answers::{given_of, value_in};
use moka_values::Exact;
use std::alloc::AllocError;
use std::hash::{BuildHasher, Hash};

impl<K: Eq + Hash + Exact, V: Exact, S: BuildHasher + Drop> HashMap<K, V, S> {
    /// Removes the pair of the key for which `eq` answers true, and gives it. On want of memory the
    /// map stays as it was.
    pub fn remove_entry<F: FnMut(&K) -> bool>(
        &mut self,
        hash: u64,
        eq: F,
    ) -> Result<Option<(K, V)>, AllocError>
        requires callable { F.IsAlwaysCallable eq }
        requires one { (q : K) × Names
            S.BuildHasher S.Hasher.Hasher K.eq K.hash_input F.FnMut self.old hash eq q }
        ensures removed { IfOk result (λ pair. (q : K) → Names
            S.BuildHasher S.Hasher.Hasher K.eq K.hash_input F.FnMut self.old hash eq q
            → pair ≡ entries S.BuildHasher S.Hasher.Hasher K.eq K.hash_input self.old q) }
        ensures removes { IfOk result (λ pair. (q : K) → Names
            S.BuildHasher S.Hasher.Hasher K.eq K.hash_input F.FnMut self.old hash eq q
            → MatchOption pair
            (Stays S.BuildHasher S.Hasher.Hasher K.eq K.hash_input self.old self.new)
            (λ p. Removes S.BuildHasher S.Hasher.Hasher K.eq K.hash_input
            q self.old self.new)) }
        ensures err { OnErr result (Stays S.BuildHasher S.Hasher.Hasher K.eq K.hash_input
            self.old self.new) }
    {
        match self.key_of(hash, eq)? {
            None => Ok(None),
            Some(key) => self.take(key, hash),
        }
    }

    /// Removes the pair of the key for which `eq` answers true, and gives its value. On want of
    /// memory the map stays as it was.
    pub fn remove<F: FnMut(&K) -> bool>(
        &mut self,
        hash: u64,
        eq: F,
    ) -> Result<Option<V>, AllocError>
        requires callable { F.IsAlwaysCallable eq }
        requires one { (q : K) × Names
            S.BuildHasher S.Hasher.Hasher K.eq K.hash_input F.FnMut self.old hash eq q }
        ensures removed { IfOk result (λ value. (q : K) → Names
            S.BuildHasher S.Hasher.Hasher K.eq K.hash_input F.FnMut self.old hash eq q
            → value ≡ option_map (λ p. p.1)
            (entries S.BuildHasher S.Hasher.Hasher K.eq K.hash_input self.old q)) }
        ensures removes { IfOk result (λ value. (q : K) → Names
            S.BuildHasher S.Hasher.Hasher K.eq K.hash_input F.FnMut self.old hash eq q
            → MatchOption value
            (Stays S.BuildHasher S.Hasher.Hasher K.eq K.hash_input self.old self.new)
            (λ v. Removes S.BuildHasher S.Hasher.Hasher K.eq K.hash_input
            q self.old self.new)) }
        ensures err { OnErr result (Stays S.BuildHasher S.Hasher.Hasher K.eq K.hash_input
            self.old self.new) }
    {
        let pair = self.remove_entry(hash, eq)?;
        Ok(value_in(pair))
    }

    // A clone of the present key that the test is true of.
    fn key_of<F: FnMut(&K) -> bool>(&self, hash: u64, eq: F) -> Result<Option<K>, AllocError>
        requires callable { F.IsAlwaysCallable eq }
        requires one { (q : K) × Names
            S.BuildHasher S.Hasher.Hasher K.eq K.hash_input F.FnMut self.now hash eq q }
        ensures { IfOk result (λ key. (q : K) → Names
            S.BuildHasher S.Hasher.Hasher K.eq K.hash_input F.FnMut self.now hash eq q
            → key ≡ option_map (λ p. p.0)
            (entries S.BuildHasher S.Hasher.Hasher K.eq K.hash_input self.now q)) }
    {
        match self.find(hash, eq) {
            None => Ok(None),
            Some((key, _)) => Ok(Some(key.clone()?)),
        }
    }

    /// Removes the pair of the key for which `eq` answers true, where the condition holds of the
    /// pair, and gives its value. On want of memory the map stays as it was.
    pub fn remove_if<F: FnMut(&K) -> bool, C: FnMut(&K, &V) -> bool>(
        &mut self,
        hash: u64,
        eq: F,
        condition: C,
    ) -> Result<Option<V>, AllocError>
        requires callable { F.IsAlwaysCallable eq }
        requires tests { C.IsAlwaysCallable condition }
        requires one { (q : K) × Names
            S.BuildHasher S.Hasher.Hasher K.eq K.hash_input F.FnMut self.old hash eq q }
        ensures takes { IfOk result (λ value. (q : K) → Names
            S.BuildHasher S.Hasher.Hasher K.eq K.hash_input F.FnMut self.old hash eq q
            → (taken : Option (K × V)) × (value ≡ option_map (λ p. p.1) taken) × TakesWhere
            S.BuildHasher S.Hasher.Hasher K.eq K.hash_input C.FnMut condition q
            self.old taken self.new) }
        ensures err { OnErr result (Stays S.BuildHasher S.Hasher.Hasher K.eq K.hash_input
            self.old self.new) }
    {
        let pair = self.take_where(hash, eq, condition)?;
        Ok(value_in(pair))
    }

    /// Removes the pair of the key for which `eq` answers true, where the condition holds of the
    /// pair, and gives what the closure answers of it. On want of memory the map stays as it was.
    pub fn remove_entry_if_and<
        T,
        F: FnMut(&K) -> bool,
        C: FnMut(&K, &V) -> bool,
        W: FnOnce(&K, &V) -> T,
    >(
        &mut self,
        hash: u64,
        eq: F,
        condition: C,
        with_previous_entry: W,
    ) -> Result<Option<T>, AllocError>
        requires callable { F.IsAlwaysCallable eq }
        requires tests { C.IsAlwaysCallable condition }
        requires with { W.IsAlwaysCallable with_previous_entry }
        requires one { (q : K) × Names
            S.BuildHasher S.Hasher.Hasher K.eq K.hash_input F.FnMut self.old hash eq q }
        ensures takes { IfOk result (λ given. (q : K) → Names
            S.BuildHasher S.Hasher.Hasher K.eq K.hash_input F.FnMut self.old hash eq q
            → (taken : Option (K × V)) × GivesOf W.FnOnce with_previous_entry taken given
            × TakesWhere S.BuildHasher S.Hasher.Hasher K.eq K.hash_input C.FnMut condition q
            self.old taken self.new) }
        ensures err { OnErr result (Stays S.BuildHasher S.Hasher.Hasher K.eq K.hash_input
            self.old self.new) }
    {
        let pair = self.take_where(hash, eq, condition)?;
        Ok(given_of(pair, with_previous_entry))
    }

    // Removes the key that the test is true of, where the condition holds of its pair, and gives
    // that.
    fn take_where<F: FnMut(&K) -> bool, C: FnMut(&K, &V) -> bool>(
        &mut self,
        hash: u64,
        eq: F,
        condition: C,
    ) -> Result<Option<(K, V)>, AllocError>
        requires callable { F.IsAlwaysCallable eq }
        requires tests { C.IsAlwaysCallable condition }
        requires one { (q : K) × Names
            S.BuildHasher S.Hasher.Hasher K.eq K.hash_input F.FnMut self.old hash eq q }
        ensures takes { IfOk result (λ taken. (q : K) → Names
            S.BuildHasher S.Hasher.Hasher K.eq K.hash_input F.FnMut self.old hash eq q
            → TakesWhere S.BuildHasher S.Hasher.Hasher K.eq K.hash_input C.FnMut condition q
            self.old taken self.new) }
        ensures err { OnErr result (Stays S.BuildHasher S.Hasher.Hasher K.eq K.hash_input
            self.old self.new) }
    {
        match self.key_where(hash, eq, condition)? {
            None => Ok(None),
            Some(key) => self.take(key, hash),
        }
    }

    // A clone of the key that the test is true of, where the condition holds of its pair.
    fn key_where<F: FnMut(&K) -> bool, C: FnMut(&K, &V) -> bool>(
        &self,
        hash: u64,
        eq: F,
        mut condition: C,
    ) -> Result<Option<K>, AllocError>
        requires callable { F.IsAlwaysCallable eq }
        requires tests { C.IsAlwaysCallable condition }
        requires one { (q : K) × Names
            S.BuildHasher S.Hasher.Hasher K.eq K.hash_input F.FnMut self.now hash eq q }
        ensures { IfOk result (λ key. (q : K) → Names
            S.BuildHasher S.Hasher.Hasher K.eq K.hash_input F.FnMut self.now hash eq q
            → MatchOption key
            (Spares C.FnMut condition
            (entries S.BuildHasher S.Hasher.Hasher K.eq K.hash_input self.now q))
            (λ k. (v : V) × Makes C.FnMut condition (k, v) true
            × (entries S.BuildHasher S.Hasher.Hasher K.eq K.hash_input self.now q
            ≡ Some (k, v)))) }
    {
        let Some((key, value)) = self.find(hash, eq) else {
            return Ok(None);
        };
        if condition(key, value) {
            return Ok(Some(key.clone()?));
        }
        Ok(None)
    }
}
