//! The plain table: one hash map, whose operations decide at their first step.
ghost use Rattle.std.specs.Prelude.{◌≡◌, ◌≢◌, ℕ, ◌<◌, ◌≤◌, ◌-◌, true, max, List, OnErr, OnOk, IfOk, IsOk};
ghost use Rattle.std.specs.Prelude.{Option, Some, None, IsSome, is_some};
ghost use Rattle.std.proofs.Common.{arith, refl};
ghost use Rattle.std.specs.HashMap.{hash_map_len, spare};
ghost use Rattle.moka_hist.specs.Finite.{put_key};
ghost use Rattle.moka_hist.specs.Tables.{answer_of, taken_by};
ghost use Rattle.moka_hist.specs.declared.tables.TableAnswer.TheVariants as found;
ghost use Rattle.moka_hist.specs.declared.tables.TableOp.{TableOp};
ghost use Rattle.moka_table.specs.declared.plain.PlainCall.{PlainCall};
ghost use Rattle.moka_table.specs.Empty.{IsEmptyTable};
ghost use Rattle.moka_table.specs.Map.{GoesOnListing, SameMap, Moves, keys_after, most_steps};
ghost use Rattle.moka_table.specs.Plain.{AllCovered, IsOfPart, IsPlainList, NoneListed, plain_part, plain_parts};
ghost use Rattle.moka_table.specs.Plain.{map_of, peak_of, plain_first, plain_left, plain_table};

use crate::{EntryList, Table};
use moka_hist::{KeyList, Stored, TableAnswer, TableOp, TableTurn};
use moka_room::{FixedSeed, map_room};
use moka_values::Exact;
use std::alloc::{AllocError, Global};
use std::cmp;
use std::collections::HashMap;
use std::hash::{BuildHasher, Hash};

/// A table over one hash map, which hashes keys by S. Each operation decides at its one step.
#[derive(Drop)]
pub struct PlainTable<K: Eq + Hash, V, S: BuildHasher = FixedSeed> {
    alloc: Global,
    pairs: HashMap<K, (K, Stored<V>), S>,
    // The most pairs that there were at once before the latest removal.
    most: usize,
}

/// An operation on a plain table: what it is, until it has decided.
#[derive(Drop)]
pub struct PlainCall<K, V> {
    operation: Option<TableOp<K, V>>,
}

impl<K: Eq + Hash + Exact, V: Exact> PlainTable<K, V, FixedSeed> {
    /// A table without keys, which hashes by std's fixed seed. It takes no memory.
    pub fn new(alloc: Global) -> Self
        ensures empty { IsEmptyTable (plain_table K.eq) result }
    {
        PlainTable::with_hasher(alloc, FixedSeed::new())
    }
}

impl<K: Eq + Hash + Exact, V: Exact, S: BuildHasher> PlainTable<K, V, S> {
    /// A table without keys, which hashes by this hasher. It takes no memory.
    pub fn with_hasher(alloc: Global, hasher: S) -> Self
        ensures empty { IsEmptyTable (plain_table K.eq) result }
    {
        PlainTable {
            alloc,
            pairs: HashMap::with_hasher(alloc, hasher),
            most: 0,
        }
    }

    // What the map has at the key, as clones. Where it has nothing there it takes no memory.
    fn look(&self, key: &K) -> Result<TableAnswer<K, V>, AllocError>
        ensures answer { IfOk result (λ a. a ≡ answer_of (map_of K.eq self.now key.now)) }
        ensures absent { map_of K.eq self.now key.now ≡ None → IsOk result }
    {
        match self.pairs.get(key) {
            None => Ok(TableAnswer::None),
            Some(pair) => cloned_pair(pair),
        }
    }

    // Room for one more key. Room that is far more than that is given back.
    fn make_room(&mut self) -> Result<(), AllocError>
        ensures ok { OnOk result (0 < spare self.new.pairs) }
        ensures same { SameMap (map_of K.eq self.old) (map_of K.eq self.new) }
        ensures count { hash_map_len self.new.pairs ≡ hash_map_len self.old.pairs }
        ensures most { self.new.most ≡ self.old.most }
    {
        map_room::reserve(&mut self.pairs, 1)
    }

    // Puts the pair under its key, and gives the one that was there. There is room, so it can't
    // fail.
    #[inline(always)]
    fn put(&mut self, place: K, key: K, stored: Stored<V>) -> TableAnswer<K, V>
        requires room { 0 < spare self.old.pairs }
        requires place { place ≡ key }
        ensures answer { result ≡ answer_of (map_of K.eq self.old key) }
        ensures map { (q : K) → map_of K.eq self.new q
            ≡ put_key K.eq (map_of K.eq self.old) key (Some (key, stored)) q }
        ensures count { hash_map_len self.new.pairs ≡ keys_after (map_of K.eq self.old)
            (hash_map_len self.old.pairs) (TableOp.InsertOrModify key stored) }
        ensures most { self.new.most ≡ self.old.most }
    {
        match self.pairs.insert(place, (key, stored)) {
            Ok(None) => TableAnswer::None,
            Ok(Some((key, stored))) => TableAnswer::Some { key, stored },
            Err(_) => unreachable!(),
        }
    }

    // A clone of the key, and room for it.
    fn place_for(&mut self, key: &K) -> Result<K, AllocError>
        ensures place { IfOk result (λ place. place ≡ key.now) }
        ensures room { OnOk result (0 < spare self.new.pairs) }
        ensures map { SameMap (map_of K.eq self.old) (map_of K.eq self.new) }
        ensures count { hash_map_len self.new.pairs ≡ hash_map_len self.old.pairs }
        ensures most { self.new.most ≡ self.old.most }
    {
        self.make_room()?;
        key.clone()
    }

    // Whether there is a record at the key that has the stamp, if one is asked for.
    fn has(&self, key: &K, stamp: Option<u64>) -> bool
        ensures { result ≡ is_some (taken_by stamp (map_of K.eq self.now key.now)) }
    {
        match (self.pairs.get(key), stamp) {
            (None, _) => false,
            (Some(_), None) => true,
            (Some(pair), Some(stamp)) => pair.1.stamp == stamp,
        }
    }

    // Takes out the pair at the key, whatever its stamp.
    fn take_out(&mut self, key: &K) -> TableAnswer<K, V>
        ensures answer { result ≡ answer_of (map_of K.eq self.old key.now) }
        ensures map { (q : K) → map_of K.eq self.new q
            ≡ put_key K.eq (map_of K.eq self.old) key.now None q }
        ensures count { IsSome (map_of K.eq self.old key.now)
            → hash_map_len self.new.pairs ≡ hash_map_len self.old.pairs - 1 }
        ensures peak { peak_of self.new ≡ peak_of self.old }
    {
        self.most = cmp::max(self.most, self.pairs.len());
        match self.pairs.remove(key) {
            None => TableAnswer::None,
            Some((key, stored)) => TableAnswer::Some { key, stored },
        }
    }
}

impl<K: Eq + Hash + Exact, V: Exact, S: BuildHasher> PlainTable<K, V, S> {
    // The one step of a look. Without memory the call is as before.
    fn step_look(&self, call: &mut PlainCall<K, V>, key: K) -> Result<TableTurn<K, V>, AllocError>
        ensures ok { IfOk result (λ t.
            t ≡ TableTurn.Decided (answer_of (map_of K.eq self.now key))) }
        ensures absent { map_of K.eq self.now key ≡ None → IsOk result }
        ensures err { OnErr result (call.new.operation ≡ Some (TableOp.Get key)) }
    {
        match self.look(&key) {
            Ok(answer) => Ok(TableTurn::Decided(answer)),
            Err(e) => {
                call.operation = Some(TableOp::Get { key });
                Err(e)
            }
        }
    }

    // The one step of a write. Without memory table and call are as before.
    fn step_put(
        &mut self,
        call: &mut PlainCall<K, V>,
        key: K,
        stored: Stored<V>,
    ) -> Result<TableTurn<K, V>, AllocError>
        ensures moves { IfOk result (λ turn. Moves K.eq (TableOp.InsertOrModify key stored)
            (map_of K.eq self.old) (hash_map_len self.old.pairs) turn
            (map_of K.eq self.new) (hash_map_len self.new.pairs)) }
        ensures decided { IfOk result (λ turn. turn ≢ TableTurn.Going) }
        ensures peak { peak_of self.new ≡ max (peak_of self.old) (hash_map_len self.new.pairs) }
        ensures err { OnErr result (call.new.operation ≡ Some (TableOp.InsertOrModify key stored)) }
        ensures err_map { OnErr result (SameMap (map_of K.eq self.old) (map_of K.eq self.new)) }
        ensures err_count { OnErr result
            (hash_map_len self.new.pairs ≡ hash_map_len self.old.pairs) }
    {
        match self.place_for(&key) {
            Ok(place) => Ok(TableTurn::Decided(self.put(place, key, stored))),
            Err(e) => {
                call.operation = Some(TableOp::InsertOrModify { key, stored });
                Err(e)
            }
        }
    }

    // The one step of a write where the key is to be absent. Without memory table and call are as
    // before.
    fn step_absent(
        &mut self,
        call: &mut PlainCall<K, V>,
        key: K,
        stored: Stored<V>,
    ) -> Result<TableTurn<K, V>, AllocError>
        ensures moves { IfOk result (λ turn. Moves K.eq (TableOp.InsertIfAbsent key stored)
            (map_of K.eq self.old) (hash_map_len self.old.pairs) turn
            (map_of K.eq self.new) (hash_map_len self.new.pairs)) }
        ensures decided { IfOk result (λ turn. turn ≢ TableTurn.Going) }
        ensures peak { peak_of self.new ≡ max (peak_of self.old) (hash_map_len self.new.pairs) }
        ensures err { OnErr result (call.new.operation ≡ Some (TableOp.InsertIfAbsent key stored)) }
        ensures err_map { OnErr result (SameMap (map_of K.eq self.old) (map_of K.eq self.new)) }
        ensures err_count { OnErr result
            (hash_map_len self.new.pairs ≡ hash_map_len self.old.pairs) }
    {
        match self.look(&key) {
            Ok(TableAnswer::None) => self.step_first(call, key, stored),
            Ok(there) => Ok(TableTurn::Decided(there)),
            Err(e) => {
                call.operation = Some(TableOp::InsertIfAbsent { key, stored });
                Err(e)
            }
        }
    }

    // The one step of a write at a key that is absent. Without memory table and call are as before.
    fn step_first(
        &mut self,
        call: &mut PlainCall<K, V>,
        key: K,
        stored: Stored<V>,
    ) -> Result<TableTurn<K, V>, AllocError>
        requires absent { map_of K.eq self.old key ≡ None }
        ensures moves { IfOk result (λ turn. Moves K.eq (TableOp.InsertIfAbsent key stored)
            (map_of K.eq self.old) (hash_map_len self.old.pairs) turn
            (map_of K.eq self.new) (hash_map_len self.new.pairs)) }
        ensures decided { IfOk result (λ turn. turn ≢ TableTurn.Going) }
        ensures peak { peak_of self.new ≡ max (peak_of self.old) (hash_map_len self.new.pairs) }
        ensures err { OnErr result (call.new.operation ≡ Some (TableOp.InsertIfAbsent key stored)) }
        ensures err_map { OnErr result (SameMap (map_of K.eq self.old) (map_of K.eq self.new)) }
        ensures err_count { OnErr result
            (hash_map_len self.new.pairs ≡ hash_map_len self.old.pairs) }
    {
        match self.place_for(&key) {
            Ok(place) => Ok(TableTurn::Decided(self.put(place, key, stored))),
            Err(e) => {
                call.operation = Some(TableOp::InsertIfAbsent { key, stored });
                Err(e)
            }
        }
    }

    // The one step of a list. Without memory the call is as before.
    fn step_keys(
        &self,
        call: &mut PlainCall<K, V>,
        part: usize,
    ) -> Result<TableTurn<K, V>, AllocError>
        ensures gives { IfOk result (λ turn. (keys : List K)
            × (turn ≡ TableTurn.Decided (found.Keys keys)) × IsPlainList K.eq self.now part keys) }
        ensures err { OnErr result (call.new.operation ≡ Some (TableOp.Keys part)) }
    {
        match self.keys_of(part) {
            Ok(keys) => Ok(TableTurn::Decided(TableAnswer::Keys(KeyList::from_vec(keys)))),
            Err(e) => {
                call.operation = Some(TableOp::Keys { part });
                Err(e)
            }
        }
    }

    // Copies of the keys of the part: of each, or of none, since there is one part.
    fn keys_of(&self, part: usize) -> Result<Vec<K>, AllocError>
        ensures { IfOk result (λ keys. IsPlainList K.eq self.now part keys.items) }
    {
        if part == 0 {
            self.keys()
        } else {
            Ok(Vec::new(self.alloc))
        }
    }

    // Copies of the keys.
    fn keys(&self) -> Result<Vec<K>, AllocError>
        ensures { IfOk result (λ keys. IsPlainList K.eq self.now 0 keys.items) }
    {
        let mut keys = Vec::with_capacity(self.alloc, self.pairs.len())?;
        for key in self.pairs.keys() {
            keys.push(key.clone()?)?;
        }
        Ok(keys)
    }

    // The one step of a removal. It takes no memory.
    fn step_out(&mut self, key: &K, stamp: Option<u64>) -> TableTurn<K, V>
        ensures moves { Moves K.eq (TableOp.RemoveIf key.now stamp)
            (map_of K.eq self.old) (hash_map_len self.old.pairs) result
            (map_of K.eq self.new) (hash_map_len self.new.pairs) }
        ensures decided { result ≢ TableTurn.Going }
        ensures peak { peak_of self.new ≡ max (peak_of self.old) (hash_map_len self.new.pairs) }
    {
        if self.has(key, stamp) {
            TableTurn::Decided(self.take_out(key))
        } else {
            TableTurn::Decided(TableAnswer::None)
        }
    }
}

impl<K: Eq + Hash + Exact, V: Exact, S: BuildHasher> Table<K, V> for PlainTable<K, V, S> {
    type Call = PlainCall<K, V>;

    ghost map = { λ t. map_of K.eq t };

    ghost count = { λ t. hash_map_len t.pairs };

    ghost peak = { λ t. peak_of t };

    ghost first = { λ t. plain_first };

    ghost operation_of = { λ c. c.operation };

    ghost fits = { λ t c. c.operation ≢ None };

    ghost left = { λ t c. plain_left };

    ghost divided = { λ t. plain_parts };

    ghost part_of = { λ t. plain_part };

    ghost listed = { λ t c. NoneListed };

    ghost covers = { λ t c. AllCovered };

    ghost peak_holds = { λ t. Prim.omega arith };

    ghost first_holds = { λ t. Prim.omega arith };

    ghost parts_hold = { λ t. (Prim.omega arith, Prim.omega arith) };

    ghost part_holds = { λ t key. Prim.omega arith };

    ghost alike = { λ t a b same. refl };

    fn parts(&self) -> usize
        ensures { result ≡ plain_parts }
    {
        1
    }

    fn begin(&self, operation: TableOp<K, V>) -> PlainCall<K, V>
        ensures operation { result.operation ≡ Some operation }
        ensures fits { result.operation ≢ None }
        ensures left { plain_left ≤ most_steps plain_first (peak_of self.now) }
        ensures none { (part : ℕ) → operation ≡ TableOp.Keys part → (q : K) → NoneListed q → ⊥ }
        ensures all { (part : ℕ) → operation ≡ TableOp.Keys part
            → (q : K) → IsOfPart part q → AllCovered q }
    {
        PlainCall {
            operation: Some(operation),
        }
    }

    fn step(&mut self, call: &mut PlainCall<K, V>) -> Result<TableTurn<K, V>, AllocError>
        requires fits { call.old.operation ≢ None }
        // What it gives, and what the table is after it.
        ensures moves { IfOk result (λ turn. (o : TableOp K V) → call.old.operation ≡ Some o
            → Moves K.eq o (map_of K.eq self.old) (hash_map_len self.old.pairs) turn
            (map_of K.eq self.new) (hash_map_len self.new.pairs)) }
        ensures peak { peak_of self.new ≡ max (peak_of self.old) (hash_map_len self.new.pairs) }
        ensures first { plain_first ≡ plain_first }
        ensures parts { (plain_parts ≡ plain_parts) × ((q : K) → plain_part q ≡ plain_part q) }
        // Of a call that lists the keys of a part: how it goes on, and which it gives at last.
        ensures lists { IfOk result (λ turn. (part : ℕ)
            → call.old.operation ≡ Some (TableOp.Keys part) → turn ≡ TableTurn.Going
            → GoesOnListing (map_of K.eq self.old) (IsOfPart part) NoneListed NoneListed
            AllCovered AllCovered) }
        ensures gives { IfOk result (λ turn. (part : ℕ) → (keys : List K)
            → call.old.operation ≡ Some (TableOp.Keys part)
            → turn ≡ TableTurn.Decided (found.Keys keys) → IsPlainList K.eq self.old part keys) }
        // A removal takes no memory.
        ensures removal { (key : K) (stamp : Option ℕ)
            → call.old.operation ≡ Some (TableOp.RemoveIf key stamp) → IsOk result }
        // Nor does a look at a key that is absent.
        ensures absent { (key : K) → call.old.operation ≡ Some (TableOp.Get key)
            → map_of K.eq self.old key ≡ None → IsOk result }
        // An undecided call is still begun, and nearer to its end.
        ensures undecided { IfOk result (λ turn. turn ≡ TableTurn.Going
            → (call.new.operation ≡ call.old.operation) × (call.new.operation ≢ None)) }
        ensures nears { IfOk result (λ turn. turn ≡ TableTurn.Going → plain_left < plain_left) }
        // The other calls: they still fit, and are as far from their end as at their beginning.
        ensures others { (other : PlainCall K V) → other.operation ≢ None
            → other.operation ≢ None }
        ensures others_left { (other : PlainCall K V) → other.operation ≢ None
            → plain_left ≤ most_steps plain_first (peak_of self.new) }
        // They have listed no key more, and cover what they covered of the keys that stay.
        ensures others_listed { (other : PlainCall K V) → other.operation ≢ None
            → (q : K) → NoneListed q → NoneListed q }
        ensures others_cover { (other : PlainCall K V) (part : ℕ) → other.operation ≢ None
            → other.operation ≡ Some (TableOp.Keys part) → (q : K) → IsOfPart part q
            → IsSome (map_of K.eq self.old q) → IsSome (map_of K.eq self.new q)
            → AllCovered q → AllCovered q }
        // Without memory nothing has changed, for this call and for the others.
        ensures err_map { OnErr result (SameMap (map_of K.eq self.old) (map_of K.eq self.new)) }
        ensures err_count { OnErr result
            (hash_map_len self.new.pairs ≡ hash_map_len self.old.pairs) }
        ensures err_listed { OnErr result ((q : K) → (NoneListed q → NoneListed q)
            × (AllCovered q → AllCovered q)) }
        ensures err_call { OnErr result ((call.new.operation ≡ call.old.operation)
            × (call.new.operation ≢ None) × (plain_left ≡ plain_left)) }
        ensures err_others { OnErr result ((other : PlainCall K V) → other.operation ≢ None
            → plain_left ≤ plain_left) }
    {
        match call.operation.take() {
            Some(TableOp::Get { key }) => self.step_look(call, key),
            Some(TableOp::InsertOrModify { key, stored }) => self.step_put(call, key, stored),
            Some(TableOp::InsertIfAbsent { key, stored }) => self.step_absent(call, key, stored),
            Some(TableOp::RemoveIf { key, stamp }) => Ok(self.step_out(&key, stamp)),
            Some(TableOp::Keys { part }) => self.step_keys(call, part),
            None => unreachable!(),
        }
    }

    fn pairs(&self, alloc: Global) -> Result<EntryList<K, V>, AllocError> {
        let mut pairs = Vec::with_capacity(alloc, self.pairs.len())?;
        for pair in self.pairs.values() {
            pairs.push(copied(pair)?)?;
        }
        Ok(EntryList::from_vec(pairs))
    }

    fn len(&self) -> usize {
        self.pairs.len()
    }
}

// A copy of the pair.
fn copied<K: Exact, V: Exact>(pair: &(K, Stored<V>)) -> Result<(K, Stored<V>), AllocError>
    ensures { IfOk result (λ copy. copy ≡ pair.now) }
{
    Ok((pair.0.clone()?, pair.1.clone()?))
}

fn cloned_pair<K: Exact, V: Exact>(pair: &(K, Stored<V>)) -> Result<TableAnswer<K, V>, AllocError>
    ensures { IfOk result (λ a. a ≡ answer_of (Some pair.now)) }
{
    let (key, stored) = copied(pair)?;
    Ok(TableAnswer::Some { key, stored })
}
