//! The table of buckets as a `Table`.

ghost use Rattle.std.specs.Prelude.{List, ◌≡◌, ℕ, IsSome, ◌+◌, ◌-◌, ◌<◌, ◌≤◌, if◌then◌else◌, max, min, length, Ok, OnErr, IfOk, Some};
ghost use Rattle.std.proofs.Common.{arith};
ghost use Rattle.moka_buckets.specs.declared.key_op.KeyOp.{KeyOp};
ghost use Rattle.moka_hist.specs.declared.tables.TableTurn.{TableTurn};
ghost use Rattle.moka_hist.specs.declared.tables.TableOp.{TableOp};
ghost use Rattle.moka_hist.specs.declared.tables.TableAnswer.TheVariants as found;
ghost use Rattle.moka_table.specs.Map.{GoesOnListing, IsList, ListsPairs, Moves, SameMap, longest, most_steps};

use crate::bucket_table::{BucketTable, MOST_PARTS};
use crate::key_op::KeyOp;
use crate::listing::list_parts;
use crate::op_call::OpCall;
use moka_hist::{TableOp, TableTurn};
use moka_table::{EntryList, Table};
use moka_values::Exact;
use std::alloc::{AllocError, Global};
use std::hash::{BuildHasher, Hash};

impl<K: Eq + Hash + Exact, V: Exact, S: BuildHasher + Drop> Table<K, V> for BucketTable<K, V, S> {
    type Call = OpCall<K, V>;

    ghost use Rattle.moka_buckets.specs.Ops.{covers_for, fits_for, left_for, listed_for, operation_for, part_for, parts_in};
    ghost use Rattle.moka_buckets.specs.Views.{count_of, first_of, map_in, peak_of};
    ghost use Rattle.moka_buckets.specs.declared.op_call.OpCall.{OpCall};
    ghost use Rattle.moka_buckets.specs.Hashing.{hash_in};
    ghost use Rattle.moka_buckets.specs.Parts.{segment_of};
    ghost use Rattle.moka_buckets.specs.Ops.{in_both, is_joined, segment_parts};
    ghost use Rattle.moka_buckets.specs.Views.{segment_for};
    ghost use Rattle.std.proofs.Common.{ap};
    ghost use Rattle.std.specs.List.{fold};

    ghost map = { λ t. map_in S.BuildHasher S.Hasher.Hasher K.eq K.hash_input t };

    ghost count = { λ t. count_of t };

    ghost peak = { λ t. peak_of t };

    ghost first = { λ t. first_of t };

    ghost operation_of = { λ c. operation_for c };

    ghost fits = { λ t c. fits_for S.BuildHasher S.Hasher.Hasher K.eq K.hash_input t c };

    ghost left = { λ t c. left_for t c };

    ghost divided = { λ t. parts_in t };

    ghost part_of = { λ t. part_for S.BuildHasher S.Hasher.Hasher K.eq K.hash_input t };

    ghost listed = { λ t c. listed_for t c };

    ghost covers = { λ t c. covers_for K.eq t c };

    ghost peak_holds = { λ t. Prim.omega arith };

    ghost first_holds = { λ t. Prim.omega arith };

    ghost parts_hold = { λ t. (
      in_both (λ n m. 0 < n) (is_joined t) 1 (segment_parts t) 0 0
          (Prim.omega arith) (Prim.omega arith),
      in_both (λ n m. n ≤ 64) (is_joined t) 1 (segment_parts t) 0 0
          (Prim.omega arith) (Prim.omega arith),
    ) };

    ghost part_holds = { λ t q. in_both (λ n m. n < m) (is_joined t) 0
        (min (segment_for S.BuildHasher S.Hasher.Hasher K.eq K.hash_input t q)
        (segment_parts t - 1))
        1 (segment_parts t) (Prim.omega arith) (Prim.omega arith) };

    ghost alike = { λ t a b same. ap (λ w. if is_joined t then 0 else
        min (segment_of (length t.parts) (S.Hasher.Hasher.finish
        (fold S.Hasher.Hasher.write (S.BuildHasher.build_hasher t.hasher) w)))
        (segment_parts t - 1)) (K.respects_eq a b same) };

    fn parts(&self) -> usize
        ensures { result ≡ parts_in self.now }
    {
        if self.parts.len() > MOST_PARTS {
            1
        } else {
            self.parts.len()
        }
    }

    fn begin(&self, operation: TableOp<K, V>) -> OpCall<K, V>
        ensures operation { operation_for result ≡ Some operation }
        ensures fits { fits_for S.BuildHasher S.Hasher.Hasher K.eq K.hash_input self.now result }
        ensures left { left_for self.now result
            ≤ most_steps (first_of self.now) (peak_of self.now) }
        ensures none { (part : ℕ) → operation ≡ TableOp.Keys part
            → (q : K) → listed_for self.now result q → ⊥ }
        ensures all { (part : ℕ) → operation ≡ TableOp.Keys part
            → (q : K) → part_for S.BuildHasher S.Hasher.Hasher K.eq K.hash_input self.now q ≡ part
            → covers_for K.eq self.now result q }
    {
        match operation {
            TableOp::Get { key } => self.begin_op(KeyOp::Get { key }),
            TableOp::InsertOrModify { key, stored } => {
                self.begin_op(KeyOp::InsertOrModify { key, stored })
            }
            TableOp::InsertIfAbsent { key, stored } => {
                self.begin_op(KeyOp::InsertIfAbsent { key, stored })
            }
            TableOp::RemoveIf { key, stamp } => self.begin_op(KeyOp::RemoveIf { key, stamp }),
            TableOp::Keys { part } => self.begin_list(part),
        }
    }

    fn step(&mut self, call: &mut OpCall<K, V>) -> Result<TableTurn<K, V>, AllocError>
        requires fits { fits_for S.BuildHasher S.Hasher.Hasher K.eq K.hash_input self.old call.old }
        // What it gives, and what the table is after it.
        ensures moves { IfOk result (λ turn. (o : TableOp K V) → operation_for call.old ≡ Some o
            → Moves K.eq o (map_in S.BuildHasher S.Hasher.Hasher K.eq K.hash_input self.old)
            (count_of self.old) turn
            (map_in S.BuildHasher S.Hasher.Hasher K.eq K.hash_input self.new) (count_of self.new)) }
        ensures peak { peak_of self.new ≡ max (peak_of self.old) (count_of self.new) }
        ensures first { first_of self.new ≡ first_of self.old }
        ensures parts { (parts_in self.new ≡ parts_in self.old)
            × ((q : K) → part_for S.BuildHasher S.Hasher.Hasher K.eq K.hash_input self.new q ≡
            part_for S.BuildHasher S.Hasher.Hasher K.eq K.hash_input self.old q) }
        // Of a call that lists the keys of a part: how it goes on, and which it gives at last.
        ensures lists { IfOk result (λ turn. (part : ℕ)
            → operation_for call.old ≡ Some (TableOp.Keys part) → turn ≡ TableTurn.Going
            → GoesOnListing (map_in S.BuildHasher S.Hasher.Hasher K.eq K.hash_input self.old) (λ
            q. part_for S.BuildHasher S.Hasher.Hasher K.eq K.hash_input self.old q ≡ part)
            (listed_for self.old call.old) (listed_for self.new call.new)
            (covers_for K.eq self.old call.old) (covers_for K.eq self.new call.new)) }
        ensures gives { IfOk result (λ turn. (part : ℕ) → (keys : List K)
            → operation_for call.old ≡ Some (TableOp.Keys part)
            → turn ≡ TableTurn.Decided (found.Keys keys)
            → IsList K.eq (map_in S.BuildHasher S.Hasher.Hasher K.eq K.hash_input self.old) (λ q.
            part_for S.BuildHasher S.Hasher.Hasher K.eq K.hash_input self.old q ≡ part)
            (listed_for self.old call.old) (covers_for K.eq self.old call.old)
            (longest (first_of self.old) (peak_of self.old)) keys) }
        // An undecided call is still begun, and nearer to its end.
        ensures undecided { IfOk result (λ turn. turn ≡ TableTurn.Going
            → (operation_for call.new ≡ operation_for call.old)
            × fits_for S.BuildHasher S.Hasher.Hasher K.eq K.hash_input self.new call.new) }
        ensures nears { IfOk result (λ turn. turn ≡ TableTurn.Going
            → left_for self.new call.new < left_for self.old call.old) }
        // The other calls: they still fit, and are as far from their end at most as at their
        // beginning.
        ensures others { (other : OpCall K V)
            → fits_for S.BuildHasher S.Hasher.Hasher K.eq K.hash_input self.old other → fits_for
            S.BuildHasher S.Hasher.Hasher K.eq K.hash_input self.new other }
        ensures others_left { (other : OpCall K V) → fits_for S.BuildHasher S.Hasher.Hasher K.eq
            K.hash_input self.old other
            → left_for self.new other ≤ most_steps (first_of self.new) (peak_of self.new) }
        // They have listed no key more, and cover what they covered of the keys that stay.
        ensures others_listed { (other : OpCall K V) → fits_for S.BuildHasher S.Hasher.Hasher K.eq
            K.hash_input self.old other
            → (q : K) → listed_for self.new other q → listed_for self.old other q }
        ensures others_cover { (other : OpCall K V) (part : ℕ) → fits_for S.BuildHasher
            S.Hasher.Hasher K.eq K.hash_input self.old other
            → operation_for other ≡ Some (TableOp.Keys part)
            → (q : K) → part_for S.BuildHasher S.Hasher.Hasher K.eq K.hash_input self.old q ≡ part
            → IsSome (map_in S.BuildHasher S.Hasher.Hasher K.eq K.hash_input self.old q) → IsSome
            (map_in S.BuildHasher S.Hasher.Hasher K.eq K.hash_input self.new q)
            → covers_for K.eq self.old other q → covers_for K.eq self.new other q }
        // Without memory nothing has changed, for this call and for the others.
        ensures err_map { OnErr result (SameMap (map_in S.BuildHasher S.Hasher.Hasher K.eq
            K.hash_input self.old) (map_in S.BuildHasher S.Hasher.Hasher K.eq K.hash_input
            self.new)) }
        ensures err_count { OnErr result (count_of self.new ≡ count_of self.old) }
        ensures err_call { OnErr result ((operation_for call.new ≡ operation_for call.old)
            × fits_for S.BuildHasher S.Hasher.Hasher K.eq K.hash_input self.new call.new
            × (left_for self.new call.new ≡ left_for self.old call.old)) }
        ensures err_listed { OnErr result ((q : K)
            → (listed_for self.new call.new q → listed_for self.old call.old q)
            × (covers_for K.eq self.old call.old q → covers_for K.eq self.new call.new q)) }
        ensures err_others { OnErr result ((other : OpCall K V) → fits_for S.BuildHasher
            S.Hasher.Hasher K.eq K.hash_input self.old other
            → left_for self.new other ≤ left_for self.old other) }
    {
        self.step_any(call)
    }

    fn pairs(&self, alloc: Global) -> Result<EntryList<K, V>, AllocError>
        ensures { IfOk result (λ pairs. ListsPairs K.eq pairs
            (map_in S.BuildHasher S.Hasher.Hasher K.eq K.hash_input self.now)) }
    {
        let pairs = list_parts(&self.parts, alloc)?;
        Ok(EntryList::from_vec(pairs))
    }

    fn len(&self) -> usize
        ensures { result ≡ count_of self.now }
    {
        self.len as usize
    }
}
