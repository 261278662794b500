//! The two changes of which all others are made: a pair that is stored, and one that is removed. After
//! either of them memory is given back that the table holds in vain.

ghost use Rattle.std.specs.Prelude.{◌≡◌, IfOk, OnErr, OnOk};
ghost use Rattle.std.specs.Option.{MatchOption};
ghost use Rattle.moka_map.specs.Maps.{Puts, Removes, Stays, entries, hash_for};

use crate::HashMap;
use crate::answers::pair_in;
use crate::running::run;
use moka_buckets::KeyOp;
use moka_hist::Stored;
use moka_table::Table;
use moka_values::Exact;
use std::alloc::AllocError;
use std::hash::{BuildHasher, Hash};

/// Half of the number of nodes that a segment may have beside two for each of its keys.
const SPARED: u64 = 16;

impl<K: Eq + Hash + Exact, V: Exact, S: BuildHasher + Drop> HashMap<K, V, S> {
    /// Stores the pair, and gives the pair that stood under its key. On want of memory the map
    /// drops the pair handed in, and stays as it was.
    #[tactic(auto, using(crate::proofs::Staying::stays_so))]
    pub(crate) fn put(&mut self, key: K, hash: u64, value: V) -> Result<Option<(K, V)>, AllocError>
        requires hashed { hash ≡ hash_for S.BuildHasher S.Hasher.Hasher K.hash_input
            self.old key }
        ensures before { IfOk result (λ before. before
            ≡ entries S.BuildHasher S.Hasher.Hasher K.eq K.hash_input self.old key) }
        ensures puts { OnOk result (Puts S.BuildHasher S.Hasher.Hasher K.eq K.hash_input
            key value self.old self.new) }
        ensures err { OnErr result (Stays S.BuildHasher S.Hasher.Hasher K.eq K.hash_input
            self.old self.new) }
    {
        let before = self.store(key, hash, value)?;
        self.nodes = self.nodes.saturating_add(1);
        self.give_back();
        Ok(before)
    }

    /// Removes the pair of the key, and gives it.
    #[tactic(auto, using(crate::proofs::Staying::stays_so))]
    pub(crate) fn take(&mut self, key: K, hash: u64) -> Result<Option<(K, V)>, AllocError>
        requires hashed { hash ≡ hash_for S.BuildHasher S.Hasher.Hasher K.hash_input
            self.old key }
        ensures before { IfOk result (λ before. before
            ≡ entries S.BuildHasher S.Hasher.Hasher K.eq K.hash_input self.old key) }
        ensures takes { IfOk result (λ before. MatchOption before
            (Stays S.BuildHasher S.Hasher.Hasher K.eq K.hash_input self.old self.new)
            (λ p. Removes S.BuildHasher S.Hasher.Hasher K.eq K.hash_input
            key self.old self.new)) }
        ensures err { OnErr result (Stays S.BuildHasher S.Hasher.Hasher K.eq K.hash_input
            self.old self.new) }
    {
        let before = self.clear(key, hash)?;
        self.give_back();
        Ok(before)
    }

    // Lays the table out anew once it has more than twice as many nodes as keys, and some. No
    // operation is under way. Where there is no memory for it the next change tries again.
    fn give_back(&mut self)
        ensures { Stays S.BuildHasher S.Hasher.Hasher K.eq K.hash_input self.old self.new }
    {
        let keys = self.table.len() as u64;
        let some = self.table.segments() as u64;
        if self.nodes / 2 > keys.saturating_add(some.saturating_mul(SPARED)) {
            self.lay_out(keys);
        }
    }

    // Lays the table out anew, where there is memory for it.
    fn lay_out(&mut self, keys: u64)
        ensures { Stays S.BuildHasher S.Hasher.Hasher K.eq K.hash_input self.old self.new }
    {
        if self.table.compact().is_ok() {
            self.nodes = keys;
        }
    }

    // Stores the pair, and gives the one that was under its key.
    fn store(&mut self, key: K, hash: u64, value: V) -> Result<Option<(K, V)>, AllocError>
        requires hashed { hash ≡ hash_for S.BuildHasher S.Hasher.Hasher K.hash_input
            self.old key }
        ensures before { IfOk result (λ before. before
            ≡ entries S.BuildHasher S.Hasher.Hasher K.eq K.hash_input self.old key) }
        ensures puts { OnOk result (Puts S.BuildHasher S.Hasher.Hasher K.eq K.hash_input
            key value self.old self.new) }
        ensures err { OnErr result (Stays S.BuildHasher S.Hasher.Hasher K.eq K.hash_input
            self.old self.new) }
    {
        let stored = Stored {
            value,
            stamp: 0,
            modified: 0,
        };
        let operation = KeyOp::InsertOrModify { key, stored };
        let before = run(&mut self.table, hash, operation)?;
        Ok(pair_in(before))
    }

    // Removes the key, and gives its pair.
    fn clear(&mut self, key: K, hash: u64) -> Result<Option<(K, V)>, AllocError>
        requires hashed { hash ≡ hash_for S.BuildHasher S.Hasher.Hasher K.hash_input
            self.old key }
        ensures before { IfOk result (λ before. before
            ≡ entries S.BuildHasher S.Hasher.Hasher K.eq K.hash_input self.old key) }
        ensures takes { IfOk result (λ before. MatchOption before
            (Stays S.BuildHasher S.Hasher.Hasher K.eq K.hash_input self.old self.new)
            (λ p. Removes S.BuildHasher S.Hasher.Hasher K.eq K.hash_input
            key self.old self.new)) }
        ensures err { OnErr result (Stays S.BuildHasher S.Hasher.Hasher K.eq K.hash_input
            self.old self.new) }
    {
        let operation = KeyOp::RemoveIf { key, stamp: None };
        let before = run(&mut self.table, hash, operation)?;
        Ok(pair_in(before))
    }
}
