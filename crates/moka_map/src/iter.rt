//! Going over the pairs of a map.

ghost use Rattle.std.specs.Prelude.{◌≡◌, ◌≢◌, ◌↔◌, ◌+◌, ◌^◌, ◌<◌, [], IsSome, OnOk};
ghost use Rattle.moka_map.specs.Coming.{GivesNext, IsToCome};
ghost use Rattle.moka_map.specs.Maps.{entries, segments_in};

use crate::HashMap;
use moka_values::Exact;
use std::alloc::AllocError;
use std::hash::{BuildHasher, Hash};
use std::marker::Model;

/// An iterator over the pairs of a map. It lists the keys of one segment at a time, and looks each
/// key up again. An item is an error where memory was wanting.
#[derive(Drop)]
pub struct Iter<'a, K: Eq + Hash, V, S: BuildHasher> {
    map: &'a HashMap<K, V, S>,
    // The next segment to list.
    segment: usize,
    // The keys that were listed and are still to come, the last first.
    keys: Vec<K>,
}

impl<'a, K: Eq + Hash, V, S: BuildHasher> Model for Iter<'a, K, V, S> {
    ghost use Rattle.moka_map.specs.Coming.{AreListed, Coming};

    ghost Value = { Coming K V S };

    ghost view = { λ it. record {
      map = it.map.now;
      segment = it.segment;
      keys = it.keys.items;
    } };

    ghost invariant = { λ it. AreListed S.BuildHasher S.Hasher.Hasher K.eq K.hash_input
        (record { map = it.map.now; segment = it.segment; keys = it.keys.items }) };
}

impl<K: Eq + Hash + Exact, V: Exact, S: BuildHasher + Drop> HashMap<K, V, S> {
    /// Goes over the pairs: each comes exactly once before the first None, unless an item was want
    /// of memory.
    pub fn iter(&self) -> Iter<'_, K, V, S>
        ensures map { result.map ≡ self.now }
        ensures all { (q : K)
            → IsToCome S.BuildHasher S.Hasher.Hasher K.eq K.hash_input result q
            ↔ IsSome (entries S.BuildHasher S.Hasher.Hasher K.eq K.hash_input self.now q) }
    {
        Iter {
            map: self,
            segment: 0,
            keys: Vec::new(self.alloc),
        }
    }
}

impl<'a, K: Eq + Hash + Exact, V: Exact, S: BuildHasher + Drop> Iter<'a, K, V, S> {
    // Lists the next segment.
    fn list_next(&mut self) -> Result<(), AllocError>
        requires none { self.old.keys ≡ [] }
        requires there { self.old.segment < segments_in self.old.map }
        requires fits { self.old.segment + 1 < 2 ^ 64 }
        ensures map { self.new.map ≡ self.old.map }
        ensures same { OnOk result ((q : K)
            → IsToCome S.BuildHasher S.Hasher.Hasher K.eq K.hash_input self.new q
            ↔ IsToCome S.BuildHasher S.Hasher.Hasher K.eq K.hash_input self.old q) }
        ensures nearer { OnOk result (self.new.segment ≡ self.old.segment + 1) }
    {
        match self.map.copies(self.segment)? {
            None => unreachable!(),
            Some(keys) => {
                self.keys = keys;
                self.segment += 1;
                Ok(())
            }
        }
    }

    // Gives the pair of the last key.
    fn give_last(&mut self) -> Option<Result<(K, V), AllocError>>
        requires { self.old.keys ≢ [] }
        ensures gives { GivesNext S.BuildHasher S.Hasher.Hasher K.eq K.hash_input
            self.old result self.new }
        ensures some { IsSome result }
    {
        let Some(key) = self.keys.pop() else {
            unreachable!();
        };
        match self.map.pair_of(&key) {
            Err(e) => Some(Err(e)),
            Ok(None) => unreachable!(),
            Ok(Some(pair)) => Some(Ok(pair)),
        }
    }
}

impl<'a, K: Eq + Hash + Exact, V: Exact, S: BuildHasher + Drop> Iterator for Iter<'a, K, V, S> {
    type Item = Result<(K, V), AllocError>;

    ghost use Rattle.moka_map.specs.Coming.{GivesNext, StaysOver};
    ghost use Rattle.std.specs.Iterator.{endless};

    ghost next_gives = { λ s given t.
        GivesNext S.BuildHasher S.Hasher.Hasher K.eq K.hash_input s given t
        × StaysOver S.BuildHasher S.Hasher.Hasher K.eq K.hash_input s given t };

    ghost remaining = { λ s. endless };

    fn next(&mut self) -> Option<Result<(K, V), AllocError>> {
        while self.keys.is_empty() {
            if self.segment >= self.map.actual_num_segments() {
                return None;
            }
            if self.list_next().is_err() {
                return Some(Err(AllocError));
            }
        }
        self.give_last()
    }
}
