//! The calls of the trait: each is an operation on one key, or a list.

ghost use Rattle.std.specs.Prelude.{List, ◌≡◌, ◌≢◌, true, false, ◌+◌, ◌-◌, ◌<◌, ◌≤◌, Ok, IfOk, Some};
ghost use Rattle.moka_buckets.specs.declared.key_op.KeyOp.{KeyOp};
ghost use Rattle.moka_hist.specs.declared.tables.TableTurn.{TableTurn};
ghost use Rattle.moka_hist.specs.declared.tables.TableOp.{TableOp};
ghost use Rattle.moka_hist.specs.declared.tables.TableAnswer.TheVariants as found;
ghost use Rattle.moka_table.specs.Map.{IsList, longest, most_steps};

use crate::bucket_call::BucketCall;
use crate::bucket_table::{BucketTable, MOST_PARTS};
use crate::copying::{follow, give, make_room, next_key, next_word};
use crate::key_op::KeyOp;
use crate::keys_call::KeysCall;
use crate::list_call::ListCall;
use crate::op_call::OpCall;
use crate::part_keys::copy_all;
use crate::walking::nodes_of;
use moka_hist::{KeyList, TableAnswer, TableOp, TableTurn};
use moka_values::Exact;
use moka_words::Word;
use std::alloc::{AllocError, Global};
use std::hash::{BuildHasher, Hash};

impl<K: Eq + Hash + Exact, V: Exact, S: BuildHasher + Drop> BucketTable<K, V, S> {
    ghost use Rattle.moka_buckets.specs.KeyOps.{op_of};
    ghost use Rattle.moka_buckets.specs.Ops.{StepsTable, bucket_table, covers_for, fits_for, fits_list, is_joined, left_for, listed_for, operation_for, part_for, parts_in};
    ghost use Rattle.moka_buckets.specs.Hashing.{hash_in};
    ghost use Rattle.moka_buckets.specs.Parts.{AreParts, listed_over};
    ghost use Rattle.moka_buckets.specs.Keys.{nodes_of};
    ghost use Rattle.moka_buckets.specs.Listed.{keys_at};
    ghost use Rattle.moka_buckets.specs.Views.{count_of, first_of, map_in, peak_of, word_of};
    ghost use Rattle.std.specs.Map.{keys_of};
    ghost use Rattle.std.specs.Option.{option_map_or, option_to_list};
    ghost use Rattle.std.specs.Prelude.{[]};
    ghost use Rattle.moka_buckets.specs.declared.op_call.OpCall.{OpCall};
    ghost use Rattle.moka_buckets.specs.declared.op_call.OpCall.TheVariants as any;

    // Begins an operation on a key.
    pub(super) fn begin_op(&self, operation: KeyOp<K, V>) -> OpCall<K, V>
        ensures operation { operation_for result ≡ Some (op_of operation) }
        ensures fits { fits_for S.BuildHasher S.Hasher.Hasher K.eq K.hash_input self.now result }
        ensures left { left_for self.now result
            ≤ most_steps (first_of self.now) (peak_of self.now) }
    {
        OpCall::Key(self.begin_key(operation))
    }

    // Begins a list.
    pub(super) fn begin_list(&self, part: usize) -> OpCall<K, V>
        ensures operation { operation_for result ≡ Some (TableOp.Keys part) }
        ensures fits { fits_for S.BuildHasher S.Hasher.Hasher K.eq K.hash_input self.now result }
        ensures left { left_for self.now result
            ≤ most_steps (first_of self.now) (peak_of self.now) }
        ensures none { (q : K) → listed_for self.now result q → ⊥ }
        ensures all { (q : K)
            → part_for S.BuildHasher S.Hasher.Hasher K.eq K.hash_input self.now q ≡ part
            → covers_for K.eq self.now result q }
    {
        OpCall::Keys(ListCall {
            call: self.begin_keys(part),
            keys: Vec::new(self.alloc),
        })
    }

    // Makes one step of an operation on a key.
    fn step_one(&mut self, call: &mut BucketCall<K, V>) -> Result<TableTurn<K, V>, AllocError>
        requires fits { fits_for S.BuildHasher S.Hasher.Hasher K.eq K.hash_input
            self.old (any.Key call.old) }
        ensures { StepsTable (bucket_table S.BuildHasher S.Hasher.Hasher K.eq K.hash_input) K.eq
            self.old (any.Key call.old) result self.new (any.Key call.new) }
    {
        self.step_key(call)
    }

    // Makes one step of a list.
    fn step_list(&mut self, list: &mut ListCall<K>) -> Result<TableTurn<K, V>, AllocError>
        requires fits { fits_for S.BuildHasher S.Hasher.Hasher K.eq K.hash_input
            self.old (any.Keys list.old) }
        ensures { StepsTable (bucket_table S.BuildHasher S.Hasher.Hasher K.eq K.hash_input) K.eq
            self.old (any.Keys list.old) result self.new (any.Keys list.new) }
    {
        self.is_well();
        if self.is_joined() {
            self.list_all(list)
        } else {
            self.list_next(list)
        }
    }

    // Whether all segments are one part.
    fn is_joined(&self) -> bool
        ensures { result ≡ is_joined self.now }
    {
        self.parts.len() > MOST_PARTS
    }

    // Lists the keys of all segments at once, as those of part 0; any other part has none.
    fn list_all(&self, list: &ListCall<K>) -> Result<TableTurn<K, V>, AllocError>
        requires joined { is_joined self.now ≡ true }
        ensures { IfOk result (λ turn. (keys : List K)
            × (turn ≡ TableTurn.Decided (found.Keys keys)) × IsList K.eq
            (map_in S.BuildHasher S.Hasher.Hasher K.eq K.hash_input self.now)
            (λ q. part_for S.BuildHasher S.Hasher.Hasher K.eq K.hash_input self.now q
            ≡ list.now.call.segment)
            (listed_for self.now (any.Keys list.now)) (covers_for K.eq self.now (any.Keys list.now))
            (longest (first_of self.now) (peak_of self.now)) keys) }
    {
        self.is_well();
        let keys = self.keys_of_part(list.call.segment)?;
        Ok(TableTurn::Decided(TableAnswer::Keys(KeyList::from_vec(keys))))
    }

    // Clones of the keys of all segments, of part 0; of any other part none.
    fn keys_of_part(&self, part: usize) -> Result<Vec<K>, AllocError>
        ensures all { IfOk result (λ keys. part ≡ 0
            → keys.items ≡ keys_of (listed_over self.now.parts)) }
        ensures none { IfOk result (λ keys. part ≢ 0 → keys.items ≡ []) }
    {
        if part != 0 {
            return Ok(Vec::new(self.alloc()));
        }
        let keys = self.all_keys()?;
        Ok(keys)
    }

    fn all_keys(&self) -> Result<Vec<K>, AllocError>
        ensures { IfOk result (λ keys. keys.items ≡ keys_of (listed_over self.now.parts)) }
    {
        let keys = copy_all(self.alloc, &self.parts)?;
        Ok(keys)
    }

    // What is so of each table: its segments are well, and a call that fits has few steps left.
    fn is_well(&self)
        ensures well { AreParts K.eq
            (hash_in S.BuildHasher S.Hasher.Hasher K.hash_input self.now.hasher) self.now.parts
            (first_of self.now) (peak_of self.now) (count_of self.now) }
        ensures left { (other : OpCall K V)
            → fits_for S.BuildHasher S.Hasher.Hasher K.eq K.hash_input self.now other
            → left_for self.now other ≤ most_steps (first_of self.now) (peak_of self.now) }
    {
        let _ = self.parts.len();
    }

    // Makes one step of a list of a segment. A key that is listed is cloned first: so without memory
    // nothing has changed.
    fn list_next(&mut self, list: &mut ListCall<K>) -> Result<TableTurn<K, V>, AllocError>
        requires fits { fits_for S.BuildHasher S.Hasher.Hasher K.eq K.hash_input
            self.old (any.Keys list.old) }
        requires apart { is_joined self.old ≡ false }
        ensures { StepsTable (bucket_table S.BuildHasher S.Hasher.Hasher K.eq K.hash_input) K.eq
            self.old (any.Keys list.old) result self.new (any.Keys list.new) }
    {
        self.is_well();
        let word = self.word_next(&list.call);
        let key = self.key_next(&list.call, word)?;
        make_room(&mut list.keys, &key)?;
        let done = self.step_keys(&mut list.call)?;
        follow(&mut list.keys, word, key);
        Ok(give(self.alloc(), &mut list.keys, done))
    }

    fn alloc(&self) -> Global {
        self.alloc
    }

    // The word that the call lists next, where it lists one.
    fn word_next(&self, call: &KeysCall) -> Option<Word>
        ensures { result ≡ word_of self.now call.now }
    {
        next_word(&self.parts, call)
    }

    // A clone of the key that is stored there, if one is.
    fn key_next(&self, call: &KeysCall, word: Option<Word>) -> Result<Option<K>, AllocError>
        ensures { IfOk result (λ key. option_to_list key
            ≡ option_map_or (keys_at (nodes_of self.now.parts call.now.segment)) word []) }
    {
        next_key(nodes_of(&self.parts, call.segment), word)
    }

    // Makes one step, of an operation on a key or of a list.
    pub(super) fn step_any(
        &mut self,
        call: &mut OpCall<K, V>,
    ) -> Result<TableTurn<K, V>, AllocError>
        requires fits { fits_for S.BuildHasher S.Hasher.Hasher K.eq K.hash_input
            self.old call.old }
        ensures steps { StepsTable
            (bucket_table S.BuildHasher S.Hasher.Hasher K.eq K.hash_input) K.eq
            self.old call.old result self.new call.new }
    {
        match call {
            OpCall::Key(call) => self.step_one(call),
            OpCall::Keys(list) => self.step_list(list),
        }
    }
}
