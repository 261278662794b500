//! The table of buckets.

mod as_table;
mod calls;

ghost use Rattle.std.specs.Prelude.{List, ◌≡◌, ◌≢◌, ◌⊎◌, ◌↔◌, ℕ, true, false, is_some, IsSome, ◌+◌, ◌*◌, ◌-◌, ◌^◌, ◌<◌, ◌≤◌, max, min, length, Ok, OnErr, IfOk, Some, None};
ghost use Rattle.moka_buckets.specs.KeyOps.{MovesKey, key_of};
ghost use Rattle.moka_buckets.specs.declared.key_op.KeyOp.{KeyOp};
ghost use Rattle.moka_hist.specs.declared.tables.TableTurn.{TableTurn};
ghost use Rattle.moka_table.specs.Map.{SameMap, most_steps};

use crate::bucket_call::BucketCall;
use crate::building::{first_length, new_parts};
use crate::calling::{key_of, kind_of};
use crate::compacting::compact_parts;
use crate::key_op::KeyOp;
use crate::keys_call::KeysCall;
use crate::looking::find_over;
use crate::part::{Part, step_parts};
use crate::part_keys::{copy_keys, list_keys};
use crate::walking::{listed_keys, walk_parts};
use moka_calls::TableCall;
use moka_growth::CallKind;
use moka_hist::{Stored, TableTurn};
use moka_values::Exact;
use std::alloc::{AllocError, Global};
use std::hash::{BuildHasher, Hash};
use std::marker::Model;

/// A table of more segments is one part; else each segment is one.
const MOST_PARTS: usize = 64;

/// A table whose keys are spread over segments by their hashes, and whose arrays grow word by word
/// while its operations run.
#[derive(Drop)]
pub struct BucketTable<K: Eq + Hash, V, S: BuildHasher> {
    alloc: Global,
    parts: Vec<Part<K, V>>,
    hasher: S,
    first: usize,
    // The most keys that there were before the last step.
    peak: u64,
    len: u64,
}

impl<K: Eq + Hash, V, S: BuildHasher> Model for BucketTable<K, V, S> {
    ghost use Rattle.moka_buckets.specs.Hashing.{hash_in};
    ghost use Rattle.moka_buckets.specs.Parts.{AreParts};
    ghost use Rattle.moka_buckets.specs.Views.{Buckets};
    ghost use Rattle.std.specs.Prelude.{max};

    ghost Value = { Buckets K V S };

    ghost view = { λ t. record {
      parts = t.parts.items;
      hasher = t.hasher;
      first = t.first;
      peak = t.peak;
      len = t.len;
    } };

    ghost invariant = { λ t. AreParts K.eq
        (hash_in S.BuildHasher S.Hasher.Hasher K.hash_input t.hasher) t.parts.items
        (max 128 t.first) (max t.peak t.len) t.len };
}

impl<K: Eq + Hash + Drop, V: Drop, S: BuildHasher + Drop> BucketTable<K, V, S> {
    ghost use Rattle.std.specs.Int.{IsNextPowerOfTwo};
    ghost use Rattle.moka_table.specs.Empty.{IsEmptyTable};
    ghost use Rattle.moka_buckets.specs.Building.{AreFresh};
    ghost use Rattle.std.specs.Option.{IfSome, option_map};
    ghost use Rattle.moka_buckets.specs.Hashing.{hash_in};
    ghost use Rattle.moka_buckets.specs.Asking.{Asks, ListsCalls, ListsSegment};
    ghost use Rattle.moka_buckets.specs.Ops.{bucket_table};
    ghost use Rattle.moka_buckets.specs.Views.{IsFirst, capacity_in, count_of, first_of, map_in, peak_of, segment_for, words_in};

    /// A table without keys, of so many segments, rounded up to a power of two. For a capacity each
    /// of them has an array; without one none has. Keys are hashed by this.
    pub fn with_segments(
        alloc: Global,
        segments: usize,
        capacity: usize,
        hasher: S,
    ) -> Result<Self, AllocError>
        requires some { 0 < segments }
        requires few { segments ≤ 65536 }
        ensures segments { IfOk result (λ t. IsNextPowerOfTwo segments (length t.parts)) }
        ensures first { IfOk result (λ t. IsFirst capacity (length t.parts) t.first) }
        ensures hasher { IfOk result (λ t. t.hasher ≡ hasher) }
        // Each segment has a first array of so many empty words, or none where that is 0.
        ensures fresh { IfOk result (λ t. AreFresh (length t.parts) t.first t.parts) }
        // It has no key, and never had one.
        ensures none { IfOk result (λ t. (key : K)
            → map_in S.BuildHasher S.Hasher.Hasher K.eq K.hash_input t key ≡ None) }
        ensures count { IfOk result (λ t. (count_of t ≡ 0) × (peak_of t ≡ 0)) }
        ensures empty { IfOk result (λ t. first_of t ≡ 128 → IsEmptyTable
            (bucket_table S.BuildHasher S.Hasher.Hasher K.eq K.hash_input) t) }
    {
        let count = segments.next_power_of_two();
        let first = first_length(capacity, count)?;
        let parts = new_parts(alloc, count, first)?;
        Ok(BucketTable {
            alloc,
            parts,
            hasher,
            first,
            peak: 0,
            len: 0,
        })
    }

    /// The hash of the key.
    pub fn hash(&self, key: &K) -> u64
        ensures { result ≡ hash_in S.BuildHasher S.Hasher.Hasher K.hash_input
            self.now.hasher key.now }
    {
        self.hasher.hash_one(key)
    }

    /// The pair under the key, in the middle of growth too. It takes no memory, and makes no step of
    /// an operation.
    pub fn find(&self, key: &K) -> Option<(&K, &Stored<V>)>
        ensures { option_map (λ pair. (pair.0.now, pair.1.now)) result
            ≡ map_in S.BuildHasher S.Hasher.Hasher K.eq K.hash_input self.now key.now }
    {
        self.find_by(self.hash(key), |other| *key == *other)
    }

    /// The pair under the key that the test is true of, whose hash this is. It takes no memory, and
    /// makes no step of an operation.
    pub fn find_by<F: FnMut(&K) -> bool>(&self, hash: u64, eq: F) -> Option<(&K, &Stored<V>)>
        requires callable { F.IsAlwaysCallable eq }
        requires one { (q : K) × Asks F.FnMut K.eq
            (hash_in S.BuildHasher S.Hasher.Hasher K.hash_input self.now.hasher) hash eq q }
        ensures { (q : K) → Asks F.FnMut K.eq
            (hash_in S.BuildHasher S.Hasher.Hasher K.hash_input self.now.hasher) hash eq q
            → option_map (λ pair. (pair.0.now, pair.1.now)) result
            ≡ map_in S.BuildHasher S.Hasher.Hasher K.eq K.hash_input self.now q }
    {
        match find_over(&self.parts, hash, eq) {
            None => None,
            Some(node) => Some((&node.key, &node.stored)),
        }
    }

    /// What the closure makes of each key of the segment; None where the table hasn't the segment. It
    /// reads the root, in the middle of growth too, and makes no step of an operation.
    pub fn list_keys<T: Drop, F: FnMut(&K) -> T>(
        &self,
        segment: usize,
        with_key: F,
    ) -> Result<Option<Vec<T>>, AllocError>
        requires { F.IsAlwaysCallable with_key }
        ensures there { IfOk result (λ made. IsSome made ↔ (segment < length self.now.parts)) }
        ensures calls { IfOk result (λ made. IfSome made (λ list. (keys : List K)
            × ListsCalls F.FnMut with_key keys list.items × ListsSegment K.eq
            (segment_for S.BuildHasher S.Hasher.Hasher K.eq K.hash_input self.now)
            (map_in S.BuildHasher S.Hasher.Hasher K.eq K.hash_input self.now) segment keys)) }
    {
        match self.parts.get(segment) {
            None => Ok(None),
            Some(part) => Ok(Some(list_keys(self.alloc, part, with_key)?)),
        }
    }

    /// How many words the roots have together; it stops at the greatest number.
    pub fn words(&self) -> usize
        ensures { result ≡ min (words_in self.now) (2 ^ 64 - 1) }
    {
        let mut words: usize = 0;
        for part in self.parts.iter() {
            words = words.saturating_add(part.arrays.size(part.arrays.root()));
        }
        words
    }

    /// How many keys the roots are meant for: half of each one's words. It stops at the greatest
    /// number.
    pub fn capacity(&self) -> usize
        ensures { result ≡ min (capacity_in self.now) (2 ^ 64 - 1) }
    {
        let mut capacity: usize = 0;
        for part in self.parts.iter() {
            capacity = capacity.saturating_add(part.arrays.size(part.arrays.root()) / 2);
        }
        capacity
    }
}

impl<K: Eq + Hash + Exact, V: Exact, S: BuildHasher + Drop> BucketTable<K, V, S> {
    ghost use Rattle.std.specs.List.{slice_get};
    ghost use Rattle.moka_buckets.specs.Compacting.{AllCompact};
    ghost use Rattle.std.specs.Option.{IfSome, option_map};
    ghost use Rattle.moka_buckets.specs.Asking.{ListsSegment};
    ghost use Rattle.moka_calls.specs.Standing.{IsGoing};
    ghost use Rattle.moka_buckets.specs.Keys.{IsListing, nodes_of};
    ghost use Rattle.moka_buckets.specs.Accesses.{MovesOnce};
    ghost use Rattle.moka_buckets.specs.Hashing.{hash_in};
    ghost use Rattle.moka_buckets.specs.Views.{count_of, covers_in, first_of, fits_in, fits_keys_in, keys_listed, keys_want_of, left_keys_of, left_of, listed_of, lists_in, map_in, operation_of, peak_of, segment_for, word_of};
    ghost use Rattle.moka_buckets.specs.Walks.{carried, is_ended, node_next};
    ghost use Rattle.std.specs.Prelude.{[]};
    ghost use Rattle.moka_buckets.specs.declared.bucket_call.BucketCall.{BucketCall};
    ghost use Rattle.moka_buckets.specs.declared.keys_call.KeysCall.{KeysCall};

    /// Clones of the keys of the segment; None where the table hasn't the segment. It reads the root,
    /// in the middle of growth too, and makes no step of an operation.
    pub fn copy_keys(&self, segment: usize) -> Result<Option<Vec<K>>, AllocError>
        ensures there { IfOk result (λ keys. IsSome keys ↔ (segment < length self.now.parts)) }
        ensures lists { IfOk result (λ keys. IfSome keys (λ list. ListsSegment K.eq
            (segment_for S.BuildHasher S.Hasher.Hasher K.eq K.hash_input self.now)
            (map_in S.BuildHasher S.Hasher.Hasher K.eq K.hash_input self.now)
            segment list.items)) }
    {
        match self.parts.get(segment) {
            None => Ok(None),
            Some(part) => Ok(Some(copy_keys(self.alloc, part)?)),
        }
    }

    /// Begins an operation, on a key with this hash. It takes no memory.
    pub fn begin_at(&self, hash: u64, operation: KeyOp<K, V>) -> BucketCall<K, V>
        requires hashed { hash ≡ hash_in S.BuildHasher S.Hasher.Hasher K.hash_input
            self.now.hasher (key_of operation) }
        ensures operation { operation_of result ≡ Some operation }
        ensures fits { fits_in S.BuildHasher S.Hasher.Hasher K.eq K.hash_input
            self.now result }
        ensures left { left_of self.now result
            ≤ most_steps (first_of self.now) (peak_of self.now) }
    {
        BucketCall {
            hash,
            table: TableCall::new(self.alloc, kind_of(&operation), hash),
            node: None,
            operation,
        }
    }

    /// Begins an operation on a key. It takes no memory.
    pub fn begin_key(&self, operation: KeyOp<K, V>) -> BucketCall<K, V>
        ensures operation { operation_of result ≡ Some operation }
        ensures fits { fits_in S.BuildHasher S.Hasher.Hasher K.eq K.hash_input
            self.now result }
        ensures left { left_of self.now result
            ≤ most_steps (first_of self.now) (peak_of self.now) }
    {
        self.begin_at(self.hash(key_of(&operation)), operation)
    }

    /// Puts the keys of each segment, half-grown or not, into one array that is as short as they
    /// allow, and none where there are none; old arrays and nodes go. Operations that were begun
    /// before need not fit any more. All memory is taken first.
    pub fn compact(&mut self) -> Result<(), AllocError>
        ensures map { SameMap
            (map_in S.BuildHasher S.Hasher.Hasher K.eq K.hash_input self.old)
            (map_in S.BuildHasher S.Hasher.Hasher K.eq K.hash_input self.new) }
        ensures count { count_of self.new ≡ count_of self.old }
        ensures first { first_of self.new ≡ first_of self.old }
        ensures peak { peak_of self.new ≡ peak_of self.old }
        ensures segments { length self.new.parts ≡ length self.old.parts }
        ensures hasher { self.new.hasher ≡ self.old.hasher }
        ensures compact { IfOk result (λ done. AllCompact self.old.parts self.new.parts) }
        ensures err { OnErr result (self.new ≡ self.old) }
    {
        let parts = compact_parts(self.alloc, &self.parts)?;
        self.parts = parts;
        Ok(())
    }

    /// Begins a call that lists the keys of this segment: none, where the table hasn't the segment.
    /// It takes no memory.
    pub fn begin_keys(&self, segment: usize) -> KeysCall
        ensures segment { result.segment ≡ segment }
        ensures fits { fits_keys_in S.BuildHasher S.Hasher.Hasher K.eq K.hash_input
            self.now result }
        ensures going { IsGoing result.table }
        // It has listed no key, and has yet to come to each.
        ensures listed { listed_of result ≡ [] }
        ensures none { (key : K) → lists_in self.now result key → ⊥ }
        ensures covers { segment < length self.now.parts
            → (key : K) → covers_in K.eq self.now result key }
        ensures left { left_keys_of self.now result
            ≤ most_steps (first_of self.now) (peak_of self.now) }
    {
        KeysCall {
            segment,
            table: TableCall::new(self.alloc, CallKind::Keys, 0),
        }
    }

    /// Makes one step of a call that lists keys, and changes no pair; tells whether the call has
    /// decided. One to a segment that the table hasn't decides at its first step, with no keys.
    pub fn step_keys(&mut self, call: &mut KeysCall) -> Result<bool, AllocError>
        requires fits { fits_keys_in S.BuildHasher S.Hasher.Hasher K.eq K.hash_input
            self.old call.old }
        requires going { IsGoing call.old.table }
        ensures map { SameMap
            (map_in S.BuildHasher S.Hasher.Hasher K.eq K.hash_input self.old)
            (map_in S.BuildHasher S.Hasher.Hasher K.eq K.hash_input self.new) }
        ensures count { count_of self.new ≡ count_of self.old }
        ensures first { first_of self.new ≡ first_of self.old }
        ensures peak { peak_of self.new ≡ peak_of self.old }
        ensures segments { length self.new.parts ≡ length self.old.parts }
        ensures hasher { self.new.hasher ≡ self.old.hasher }
        ensures segment { call.new.segment ≡ call.old.segment }
        ensures fits { fits_keys_in S.BuildHasher S.Hasher.Hasher K.eq K.hash_input
            self.new call.new }
        ensures absent { length self.old.parts ≤ call.old.segment → result ≡ Ok true }
        // It makes the access that it wanted, in its own segment; the others are as they were.
        ensures one { MovesOnce K.eq
            (hash_in S.BuildHasher S.Hasher.Hasher K.hash_input self.old.hasher) None
            (keys_want_of call.old) call.old.segment result self.old.parts self.new.parts }
        ensures ended { IfOk result (λ done. done ≡ is_ended call.new.table) }
        ensures nears { IfOk result (λ done. done ≡ false
            → left_keys_of self.new call.new < left_keys_of self.old call.old) }
        // What it lists anew was in the map; a key that was there it goes on to cover.
        ensures lists { IfOk result (λ done. (key : K) → lists_in self.new call.new key
            → lists_in self.old call.old key ⊎ IsSome
            (map_in S.BuildHasher S.Hasher.Hasher K.eq K.hash_input self.old key)) }
        ensures covers { IfOk result (λ done. (key : K)
            → segment_for S.BuildHasher S.Hasher.Hasher K.eq K.hash_input self.old key
            ≡ call.old.segment
            → IsSome (map_in S.BuildHasher S.Hasher.Hasher K.eq K.hash_input self.old key)
            → covers_in K.eq self.old call.old key → covers_in K.eq self.new call.new key) }
        // Operations and other calls still fit.
        ensures others { (other : BucketCall K V)
            → fits_in S.BuildHasher S.Hasher.Hasher K.eq K.hash_input self.old other
            → fits_in S.BuildHasher S.Hasher.Hasher K.eq K.hash_input self.new other }
        ensures others_left { (other : BucketCall K V)
            → fits_in S.BuildHasher S.Hasher.Hasher K.eq K.hash_input self.old other
            → left_of self.new other ≤ most_steps (first_of self.new) (peak_of self.new) }
        ensures keys { (other : KeysCall)
            → fits_keys_in S.BuildHasher S.Hasher.Hasher K.eq K.hash_input self.old other
            → fits_keys_in S.BuildHasher S.Hasher.Hasher K.eq K.hash_input self.new other }
        ensures keys_left { (other : KeysCall)
            → fits_keys_in S.BuildHasher S.Hasher.Hasher K.eq K.hash_input self.old other
            → left_keys_of self.new other
            ≤ most_steps (first_of self.new) (peak_of self.new) }
        ensures keys_lists { (other : KeysCall) (key : K)
            → fits_keys_in S.BuildHasher S.Hasher.Hasher K.eq K.hash_input self.old other
            → lists_in self.new other key ↔ lists_in self.old other key }
        ensures keys_covers { (other : KeysCall) (key : K)
            → fits_keys_in S.BuildHasher S.Hasher.Hasher K.eq K.hash_input self.old other
            → segment_for S.BuildHasher S.Hasher.Hasher K.eq K.hash_input self.old key
            ≡ other.segment
            → IsSome (map_in S.BuildHasher S.Hasher.Hasher K.eq K.hash_input self.old key)
            → covers_in K.eq self.old other key → covers_in K.eq self.new other key }
        // No node is made.
        ensures nodes { (i : ℕ) → nodes_of self.new.parts i ≡ nodes_of self.old.parts i }
        // The list after it; what it has listed is of the segment, and at its end it is the list.
        ensures adds { IfOk result (λ done. listed_of call.new ≡ carried (listed_of call.old)
            (word_of self.old call.old) (node_next (word_of self.old call.old))) }
        ensures own { (key : K) → lists_in self.new call.new key
            → segment_for S.BuildHasher S.Hasher.Hasher K.eq K.hash_input self.new key
            ≡ call.new.segment }
        ensures listing { IfOk result (λ done. done ≡ true
            → IsListing K.eq self.new.parts call.new (keys_listed self.new call.new)) }
        ensures few { IfOk result (λ done. done ≡ true → length (keys_listed self.new call.new)
            ≤ first_of self.new + 3 * peak_of self.new) }
        ensures err { OnErr result ((call.new ≡ call.old)
            × (left_keys_of self.new call.new ≡ left_keys_of self.old call.old)) }
    {
        walk_parts(&mut self.parts, call)
    }

    /// The keys that the call has listed; None exactly where it hasn't decided.
    pub fn keys(&self, call: &KeysCall) -> Result<Option<Vec<K>>, AllocError>
        requires fits { fits_keys_in S.BuildHasher S.Hasher.Hasher K.eq K.hash_input
            self.now call.now }
        ensures ended { IfOk result (λ keys. is_some keys ≡ is_ended call.now.table) }
        ensures listing { IfOk result (λ keys. (list : List K)
            → option_map (λ v. v.items) keys ≡ Some list
            → IsListing K.eq self.now.parts call.now list) }
        // They are few, and of the call's segment.
        ensures few { IfOk result (λ keys. (list : List K)
            → option_map (λ v. v.items) keys ≡ Some list
            → length list ≤ first_of self.now + 3 * peak_of self.now) }
        ensures own { IfOk result (λ keys. (list : List K)
            → option_map (λ v. v.items) keys ≡ Some list
            → (x : ℕ) (key : K) → slice_get list x ≡ Some key
            → segment_for S.BuildHasher S.Hasher.Hasher K.eq K.hash_input self.now key
            ≡ call.now.segment) }
    {
        listed_keys(self.alloc, &self.parts, call)
    }
}

impl<K: Eq + Hash + Exact, V: Exact, S: BuildHasher + Drop> BucketTable<K, V, S> {
    ghost use Rattle.moka_buckets.specs.Accesses.{MovesOnce, StaysThere};
    ghost use Rattle.moka_buckets.specs.Hashing.{hash_in};
    ghost use Rattle.moka_buckets.specs.Views.{count_of, covers_in, first_of, fits_in, fits_keys_in, key_for, left_keys_of, left_of, lists_in, map_in, operation_of, peak_of, segment_for, segment_in, want_of};
    ghost use Rattle.moka_buckets.specs.declared.keys_call.KeysCall.{KeysCall};
    ghost use Rattle.moka_buckets.specs.declared.bucket_call.BucketCall.{BucketCall};

    /// How many segments the keys are spread over.
    pub fn segments(&self) -> usize
        ensures some { 0 < result }
        ensures is { result ≡ length self.now.parts }
    {
        self.parts.len()
    }

    /// Makes one step of an operation on a key. After want of memory the map and all calls are as
    /// before.
    pub fn step_key(&mut self, call: &mut BucketCall<K, V>) -> Result<TableTurn<K, V>, AllocError>
        requires fits { fits_in S.BuildHasher S.Hasher.Hasher K.eq K.hash_input
            self.old call.old }
        // What it gives, and what the table is after it.
        ensures moves { IfOk result (λ turn. (o : KeyOp K V) → operation_of call.old ≡ Some o
            → MovesKey K.eq o
            (map_in S.BuildHasher S.Hasher.Hasher K.eq K.hash_input self.old)
            (count_of self.old) turn
            (map_in S.BuildHasher S.Hasher.Hasher K.eq K.hash_input self.new)
            (count_of self.new)) }
        ensures peak { peak_of self.new ≡ max (peak_of self.old) (count_of self.new) }
        ensures first { first_of self.new ≡ first_of self.old }
        ensures segments { length self.new.parts ≡ length self.old.parts }
        ensures hasher { self.new.hasher ≡ self.old.hasher }
        // It makes the access that it wanted, in its own segment; the others are as they were.
        ensures one { MovesOnce K.eq
            (hash_in S.BuildHasher S.Hasher.Hasher K.hash_input self.old.hasher)
            (key_for call.old) (want_of call.old) (segment_in self.old call.old) result
            self.old.parts self.new.parts }
        // It makes no node, but where it is told to put one and the call has none: then it makes one,
        // which the call keeps, and which its next exchange puts.
        ensures stays { StaysThere (segment_in self.old call.old)
            self.old.parts self.new.parts call.old call.new }
        // An undecided call is still begun, and nearer to its end.
        ensures undecided { IfOk result (λ turn. turn ≡ TableTurn.Going
            → (operation_of call.new ≡ operation_of call.old)
            × fits_in S.BuildHasher S.Hasher.Hasher K.eq K.hash_input
            self.new call.new) }
        ensures nears { IfOk result (λ turn. turn ≡ TableTurn.Going
            → left_of self.new call.new < left_of self.old call.old) }
        // The other calls: they still fit, and are as far from their end as at their beginning.
        ensures others { (other : BucketCall K V)
            → fits_in S.BuildHasher S.Hasher.Hasher K.eq K.hash_input self.old other
            → fits_in S.BuildHasher S.Hasher.Hasher K.eq K.hash_input self.new other }
        ensures others_left { (other : BucketCall K V)
            → fits_in S.BuildHasher S.Hasher.Hasher K.eq K.hash_input self.old other
            → left_of self.new other ≤ most_steps (first_of self.new) (peak_of self.new) }
        // Calls to other segments have as many steps left as before.
        ensures elsewhere { (other : BucketCall K V)
            → segment_in self.old other ≢ segment_in self.old call.old
            → left_of self.new other ≡ left_of self.old other }
        // Calls that list keys still fit, have listed what they had, and cover what they covered of
        // the keys that were there.
        ensures keys { (other : KeysCall)
            → fits_keys_in S.BuildHasher S.Hasher.Hasher K.eq K.hash_input self.old other
            → fits_keys_in S.BuildHasher S.Hasher.Hasher K.eq K.hash_input self.new other }
        ensures keys_left { (other : KeysCall)
            → fits_keys_in S.BuildHasher S.Hasher.Hasher K.eq K.hash_input self.old other
            → left_keys_of self.new other
            ≤ most_steps (first_of self.new) (peak_of self.new) }
        ensures keys_lists { (other : KeysCall) (key : K)
            → fits_keys_in S.BuildHasher S.Hasher.Hasher K.eq K.hash_input self.old other
            → lists_in self.new other key ↔ lists_in self.old other key }
        ensures keys_covers { (other : KeysCall) (key : K)
            → fits_keys_in S.BuildHasher S.Hasher.Hasher K.eq K.hash_input self.old other
            → segment_for S.BuildHasher S.Hasher.Hasher K.eq K.hash_input self.old key
            ≡ other.segment
            → IsSome (map_in S.BuildHasher S.Hasher.Hasher K.eq K.hash_input self.old key)
            → covers_in K.eq self.old other key → covers_in K.eq self.new other key }
        // Without memory nothing has changed, for this call and for the others.
        ensures err_map { OnErr result (SameMap
            (map_in S.BuildHasher S.Hasher.Hasher K.eq K.hash_input self.old)
            (map_in S.BuildHasher S.Hasher.Hasher K.eq K.hash_input self.new)) }
        ensures err_count { OnErr result (count_of self.new ≡ count_of self.old) }
        ensures err_call { OnErr result ((operation_of call.new ≡ operation_of call.old)
            × fits_in S.BuildHasher S.Hasher.Hasher K.eq K.hash_input self.new call.new
            × (left_of self.new call.new ≡ left_of self.old call.old)) }
        ensures err_others { OnErr result ((other : BucketCall K V)
            → fits_in S.BuildHasher S.Hasher.Hasher K.eq K.hash_input self.old other
            → left_of self.new other ≤ left_of self.old other) }
    {
        // One key more could not be counted.
        if self.len == u64::MAX {
            return Err(AllocError);
        }
        self.peak = self.peak.max(self.len);
        step_parts(&mut self.parts, &mut self.len, call)
    }
}
