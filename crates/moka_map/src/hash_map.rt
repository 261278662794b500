//! The map.

ghost use Rattle.std.specs.Prelude.{◌≡◌, ◌↔◌, ◌-◌, ◌^◌, ◌<◌, ◌≤◌, min, IfOk, IsTrue, None};
ghost use Rattle.std.specs.Int.{IsNextPowerOfTwo};
ghost use Rattle.moka_buckets.specs.Views.{IsFirst, capacity_in};
ghost use Rattle.moka_map.specs.Maps.{entries, hash_for, keys_in, segments_in};

use moka_buckets::BucketTable;
use moka_table::Table;
use moka_values::Exact;
use std::alloc::{AllocError, Global};
use std::hash::{BuildHasher, Hash};
use std::marker::Model;

/// The number of segments of a map whose caller asks for none, as in moka.
const SEGMENTS: usize = 64;

/// A map of one owner, whose keys are spread over segments by their hashes, and whose arrays grow.
///
/// Calls with a hash have a condition: it is that of a key q by the map's hasher, and the test is
/// true of the keys equal to q and of no others.
#[derive(Drop)]
pub struct HashMap<K: Eq + Hash, V, S: BuildHasher> {
    pub(crate) alloc: Global,
    pub(crate) table: BucketTable<K, V, S>,
    // How many nodes the table has: those of its keys when memory was given back, and one for each
    // pair stored since.
    pub(crate) nodes: u64,
}

impl<K: Eq + Hash, V, S: BuildHasher> Model for HashMap<K, V, S> {
    ghost use Rattle.moka_buckets.specs.Views.{Buckets};

    ghost Value = { Buckets K V S };

    ghost view = { λ m. m.table };
}

impl<K: Eq + Hash + Drop, V: Drop, S: BuildHasher + Drop> HashMap<K, V, S> {
    /// Makes an empty map of `num_segments` segments, rounded up to a power of two. No segment has
    /// an array yet.
    pub fn with_num_segments_and_hasher(
        alloc: Global,
        num_segments: usize,
        build_hasher: S,
    ) -> Result<Self, AllocError>
        requires some { 0 < num_segments }
        requires few { num_segments ≤ 65536 }
        ensures empty { IfOk result (λ m. (q : K)
            → entries S.BuildHasher S.Hasher.Hasher K.eq K.hash_input m q ≡ None) }
        ensures none { IfOk result (λ m. keys_in m ≡ 0) }
        ensures segments { IfOk result (λ m. IsNextPowerOfTwo num_segments (segments_in m)) }
        ensures hasher { IfOk result (λ m. m.hasher ≡ build_hasher) }
    {
        Self::with_num_segments_capacity_and_hasher(alloc, num_segments, 0, build_hasher)
    }

    /// Makes an empty map of `num_segments` segments, rounded up to a power of two, with arrays for
    /// `capacity` keys. Arrays longer than 2^60 are answered as want of memory.
    pub fn with_num_segments_capacity_and_hasher(
        alloc: Global,
        num_segments: usize,
        capacity: usize,
        build_hasher: S,
    ) -> Result<Self, AllocError>
        requires some { 0 < num_segments }
        requires few { num_segments ≤ 65536 }
        ensures empty { IfOk result (λ m. (q : K)
            → entries S.BuildHasher S.Hasher.Hasher K.eq K.hash_input m q ≡ None) }
        ensures none { IfOk result (λ m. keys_in m ≡ 0) }
        ensures segments { IfOk result (λ m. IsNextPowerOfTwo num_segments (segments_in m)) }
        ensures first { IfOk result (λ m. IsFirst capacity (segments_in m) m.first) }
        ensures hasher { IfOk result (λ m. m.hasher ≡ build_hasher) }
    {
        let table = BucketTable::with_segments(alloc, num_segments, capacity, build_hasher)?;
        Ok(HashMap {
            alloc,
            table,
            nodes: 0,
        })
    }

    /// Makes an empty map of 64 segments, with arrays for `capacity` keys. Arrays longer than 2^60
    /// are answered as want of memory.
    pub fn with_capacity(
        alloc: Global,
        capacity: usize,
        build_hasher: S,
    ) -> Result<Self, AllocError>
        ensures empty { IfOk result (λ m. (q : K)
            → entries S.BuildHasher S.Hasher.Hasher K.eq K.hash_input m q ≡ None) }
        ensures none { IfOk result (λ m. keys_in m ≡ 0) }
        ensures segments { IfOk result (λ m. segments_in m ≡ 64) }
        ensures first { IfOk result (λ m. IsFirst capacity 64 m.first) }
        ensures hasher { IfOk result (λ m. m.hasher ≡ build_hasher) }
    {
        Self::with_num_segments_capacity_and_hasher(alloc, SEGMENTS, capacity, build_hasher)
    }

    /// Answers how many keys the arrays are meant for: half of each one's length, together. It
    /// stops at the greatest number.
    pub fn capacity(&self) -> usize
        ensures { result ≡ min (capacity_in self.now) (2 ^ 64 - 1) }
    {
        self.table.capacity()
    }

    /// Answers the hash of the key, by the map's hasher.
    pub fn hash(&self, key: &K) -> u64
        ensures { result ≡ hash_for S.BuildHasher S.Hasher.Hasher K.hash_input
            self.now key.now }
    {
        self.table.hash(key)
    }
}

impl<K: Eq + Hash + Exact, V: Exact, S: BuildHasher + Drop> HashMap<K, V, S> {
    /// Answers how many segments the keys are spread over.
    pub fn actual_num_segments(&self) -> usize
        ensures { result ≡ segments_in self.now }
    {
        self.table.segments()
    }

    /// Answers how many keys are stored.
    pub fn len(&self) -> usize
        ensures { result ≡ keys_in self.now }
    {
        self.table.len()
    }

    /// Answers whether no key is stored.
    pub fn is_empty(&self) -> bool
        ensures { IsTrue result ↔ (keys_in self.now ≡ 0) }
    {
        self.len() == 0
    }
}
