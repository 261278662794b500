//! One array of buckets, of one owner.
ghost use Rattle.std.specs.Prelude.{◌≡◌, ◌≢◌, ◌↔◌, ℕ, ◌/◌, ◌<◌, ◌^◌, IfOk, OnErr, IsOk, IsErr, Option, Some, None, IsSome, length, replicate};
ghost use Rattle.std.specs.Option.{option_copied};
ghost use Rattle.std.specs.Int.{IsPowerOfTwo};
ghost use Rattle.std.specs.Map.{keys_of};
ghost use Rattle.moka_hist.specs.Finite.{Lists};
ghost use Rattle.moka_words.specs.declared.words.Word.{Word};
ghost use Rattle.moka_cht.specs.declared.insertion.Insertion.{Insertion};
ghost use Rattle.moka_cht.specs.Nodes.{own_key, pair_in};
ghost use Rattle.moka_cht.specs.Probes.{AtPlace};
ghost use Rattle.moka_cht.specs.Buckets.{HasNoEmpty, IsHashOf, filled, live_pairs, stored, value_under};
ghost use Rattle.moka_cht.specs.Calls.{AnswersPair, Asks, Exchanges, Inserts, KeepsPresent, ListsCalls, Modifies, NeverPresent, Puts, Removes};

use crate::keys::list_keys;
use crate::look::{find, find_live, find_place, put_word, remove_word};
use crate::node::Node;
use crate::probe::{Aim, Place, Point, Probe};
use crate::store::{fill, release, retire, value_in};
use crate::{Insertion, KeyList};
use moka_words::Word;
use std::alloc::{AllocError, Global};
use std::marker::Model;

/// The length of the longest array.
const MOST_BUCKETS: usize = 1 << 60;

/// An array of buckets for pairs of a key and a value. It keeps the length that it was made with.
///
/// A bucket gets a key once and keeps it. A removal leaves a tombstone in the bucket, and only an
/// insert of that key uses the bucket again.
#[derive(Drop)]
pub struct BucketArray<K: Eq, V> {
    words: Vec<Word>,
    nodes: Vec<Node<K, V>>,
    // A node that no word names. There is at most one: the next pair that is put takes it.
    spare: Option<u64>,
}

impl<K: Eq, V> Model for BucketArray<K, V> {
    ghost use Rattle.moka_cht.specs.Buckets.{Buckets, IsSound};

    ghost Value = { Buckets K V };

    ghost view = { λ a. record { words = a.words.items; nodes = a.nodes.items } };

    ghost invariant = { λ a. IsSound K.eq a.words.items a.nodes.items a.spare };
}

impl<K: Eq + Drop, V: Drop> BucketArray<K, V> {
    /// Makes an array of `length` buckets, a power of two. A length of more than 2^60 is answered
    /// as want of memory.
    pub fn with_length(alloc: Global, length: usize) -> Result<Self, AllocError>
        requires { IsPowerOfTwo length }
        ensures words { IfOk result (λ b. b.words ≡ replicate length Word.Empty) }
        ensures pairs { IfOk result (λ b. (q : K) → stored K.eq b q ≡ None) }
        ensures hashes { IfOk result (λ b. (q : K) → filled K.eq b q ≡ None) }
        ensures long { 2 ^ 60 < length → IsErr result }
    {
        if length > MOST_BUCKETS {
            return Err(AllocError);
        }
        Ok(BucketArray {
            words: vec![in alloc; Word::Empty; length]?,
            nodes: Vec::new(alloc),
            spare: None,
        })
    }

    /// Answers how many keys the array is meant for: half of its length.
    pub fn capacity(&self) -> usize
        ensures { result ≡ length self.now.words / 2 }
    {
        self.words.len() / 2
    }

    /// Lends the value of the key for which `eq` answers true, or answers `None` where no such key
    /// is stored.
    pub fn get<F: FnMut(&K) -> bool>(&self, hash: u64, eq: F) -> Option<&V>
        requires callable { F.IsAlwaysCallable eq }
        requires one { (q : K) × Asks F.FnMut K.eq self.now hash eq q }
        ensures { (q : K) → Asks F.FnMut K.eq self.now hash eq q
            → option_copied result ≡ value_under K.eq self.now q }
    {
        match find(self.words.as_slice(), self.nodes.as_slice(), hash, eq) {
            None => None,
            Some(node) => value_in(&self.nodes[node as usize]),
        }
    }

    /// Removes the pair of the key for which `eq` answers true, where `condition` holds of the
    /// pair, and gives its value. The bucket becomes a tombstone. A removal takes no memory.
    pub fn remove_if<F: FnMut(&K) -> bool, C: FnMut(&K, &V) -> bool>(
        &mut self,
        hash: u64,
        eq: F,
        condition: C,
    ) -> Result<Option<V>, AllocError>
        requires callable { F.IsAlwaysCallable eq }
        requires tests { C.IsAlwaysCallable condition }
        requires one { (q : K) × Asks F.FnMut K.eq self.old hash eq q }
        ensures ok { IsOk result }
        ensures removes { (q : K) → Asks F.FnMut K.eq self.old hash eq q
            → IfOk result (λ v. Removes C.FnMut condition K.eq q self.old v self.new) }
    {
        match find_live(self.words.as_slice(), self.nodes.as_slice(), hash, eq) {
            None => Ok(None),
            Some(probe) => match probe.present() {
                None => unreachable!(),
                Some(node) => Ok(self.remove_at(probe, node, condition)),
            },
        }
    }

    // Removes the pair of this node, which the probe has found, where the condition holds of it,
    // and gives its value. The bucket is a tombstone then. It takes no memory.
    fn remove_at<C: FnMut(&K, &V) -> bool>(
        &mut self,
        probe: Probe,
        node: u64,
        condition: C,
    ) -> Option<V>
        requires tests { C.IsAlwaysCallable condition }
        requires at { (q : K) × AtPlace (own_key K.eq self.old.nodes q) self.old.words Aim.Remove
            probe.hash probe }
        requires present { probe.point ≡ Point.Choose (Place.Stored node) }
        ensures { (q : K)
            → AtPlace (own_key K.eq self.old.nodes q) self.old.words Aim.Remove probe.hash probe
            → Removes C.FnMut condition K.eq q self.old result self.new }
    {
        if holds(&self.nodes[node as usize], condition) {
            remove_word(&mut self.words, probe);
            Some(retire(&mut self.nodes, node))
        } else {
            None
        }
    }

    // Stores the pair at the place without a live key that the probe has found.
    fn put(&mut self, probe: Probe, hash: u64, key: K, value: V) -> Result<Insertion<V>, AllocError>
        requires hashed { IsHashOf K.eq self.old key hash }
        requires at { AtPlace (own_key K.eq self.old.nodes key) self.old.words Aim.Insert hash
            probe }
        requires vacant { (n : ℕ) → probe.point ≢ Point.Choose (Place.Stored n) }
        ensures ok { IfOk result (λ r. Inserts K.eq hash key value NeverPresent self.old r
            self.new) }
        ensures err { OnErr result (self.new ≡ self.old) }
    {
        let node = fill(&mut self.nodes, self.spare, hash, key, value)?;
        self.spare = None;
        match put_word(&mut self.words, probe, node) {
            Place::Free => Ok(Insertion::Inserted),
            Place::Dead(old) => {
                let _ = release(&mut self.nodes, old);
                self.spare = Some(old);
                Ok(Insertion::ReplacedTombstone)
            }
            Place::Stored(_) => unreachable!(),
        }
    }

    // Stores the pair in place of the one under its key, and gives that one's value.
    fn replace(
        &mut self,
        probe: Probe,
        hash: u64,
        key: K,
        value: V,
        old: u64,
    ) -> Result<Insertion<V>, AllocError>
        requires hashed { IsHashOf K.eq self.old key hash }
        requires at { AtPlace (own_key K.eq self.old.nodes key) self.old.words Aim.Insert hash
            probe }
        requires present { probe.point ≡ Point.Choose (Place.Stored old) }
        ensures ok { IfOk result (λ r. (pair : K × V) × (stored K.eq self.old key ≡ Some pair)
            × (r ≡ Insertion.AlreadyPresent pair.1) × Puts K.eq hash key value self.old self.new
            × ((m n : ℕ) × Exchanges K.eq key (Word.Live m) (Word.Live n) self.old self.new)) }
        ensures err { OnErr result (self.new ≡ self.old) }
    {
        let node = fill(&mut self.nodes, self.spare, hash, key, value)?;
        put_word(&mut self.words, probe, node);
        self.spare = Some(old);
        match release(&mut self.nodes, old) {
            Node::Pair { value, .. } => Ok(Insertion::AlreadyPresent(value)),
            _ => unreachable!(),
        }
    }

    /// Stores a value under `key`. Where the key is present, the array stores what the modifier
    /// makes of the stored pair, and gives the previous value; where it is absent, the value handed
    /// in. Where no bucket is free the array drops the key and gives the value back. On want of
    /// memory it drops both, and may have called the modifier.
    pub fn insert_or_modify<F: FnMut(&K, &V) -> V>(
        &mut self,
        hash: u64,
        key: K,
        value: V,
        modifier: F,
    ) -> Result<Insertion<V>, AllocError>
        requires hashed { IsHashOf K.eq self.old key hash }
        requires callable { F.IsAlwaysCallable modifier }
        ensures ok { IfOk result (λ r. Inserts K.eq hash key value
            (Modifies F.FnMut modifier K.eq hash key self.old) self.old r self.new) }
        ensures full { IfOk result (λ r. ((v : V) × (r ≡ Insertion.NoFree v))
            ↔ ((filled K.eq self.old key ≡ None) × HasNoEmpty self.old)) }
        ensures tombstone { IfOk result (λ r. (r ≡ Insertion.ReplacedTombstone)
            ↔ (IsSome (filled K.eq self.old key) × (stored K.eq self.old key ≡ None))) }
        ensures err { OnErr result (self.new ≡ self.old) }
    {
        match find_place(self.words.as_slice(), self.nodes.as_slice(), hash, &key) {
            None => Ok(Insertion::NoFree(value)),
            Some(probe) => match probe.present() {
                None => self.put(probe, hash, key, value),
                Some(old) => {
                    let modified = modified(&self.nodes[old as usize], modifier);
                    self.replace(probe, hash, key, modified, old)
                }
            },
        }
    }

    /// Lists what `with_key` makes of each stored key, in the order of the buckets.
    pub fn keys<T: Drop, F: FnMut(&K) -> T>(
        &self,
        alloc: Global,
        with_key: F,
    ) -> Result<KeyList<T>, AllocError>
        requires { F.IsAlwaysCallable with_key }
        ensures calls { IfOk result (λ keys. ListsCalls F.FnMut with_key
            (keys_of (live_pairs self.now)) keys) }
        ensures once { Lists K.eq (live_pairs self.now) (value_under K.eq self.now) }
    {
        let keys = list_keys(
            alloc,
            self.words.as_slice(),
            self.nodes.as_slice(),
            with_key,
        )?;
        Ok(KeyList::from_vec(keys))
    }
}

impl<K: Eq + Drop, V: Clone + Drop> BucketArray<K, V> {
    /// Stores the pair where its key is absent. Where the key is present, nothing changes and the
    /// caller gets a clone of the stored value.
    pub fn insert_if_not_present(
        &mut self,
        hash: u64,
        key: K,
        value: V,
    ) -> Result<Insertion<V>, AllocError>
        requires { IsHashOf K.eq self.old key hash }
        ensures ok { IfOk result (λ r. Inserts K.eq hash key value
            (KeepsPresent V.is_clone self.old) self.old r self.new) }
        ensures full { IfOk result (λ r. ((v : V) × (r ≡ Insertion.NoFree v))
            ↔ ((filled K.eq self.old key ≡ None) × HasNoEmpty self.old)) }
        ensures tombstone { IfOk result (λ r. (r ≡ Insertion.ReplacedTombstone)
            ↔ (IsSome (filled K.eq self.old key) × (stored K.eq self.old key ≡ None))) }
        ensures err { OnErr result (self.new ≡ self.old) }
    {
        match find_place(self.words.as_slice(), self.nodes.as_slice(), hash, &key) {
            None => Ok(Insertion::NoFree(value)),
            Some(probe) => match probe.present() {
                None => self.put(probe, hash, key, value),
                Some(node) => already(&self.nodes[node as usize]),
            },
        }
    }
}

fn already<K, V: Clone>(node: &Node<K, V>) -> Result<Insertion<V>, AllocError>
    requires { IsSome (pair_in node.now) }
    ensures { IfOk result (λ r. (pair : K × V) × (v : V) × (pair_in node.now ≡ Some pair)
        × V.is_clone pair.1 v × (r ≡ Insertion.AlreadyPresent v)) }
{
    match node {
        Node::Pair { value, .. } => Ok(Insertion::AlreadyPresent(value.clone()?)),
        _ => unreachable!(),
    }
}

fn holds<K, V, C: FnMut(&K, &V) -> bool>(node: &Node<K, V>, mut condition: C) -> bool
    requires pair { IsSome (pair_in node.now) }
    requires callable { C.IsAlwaysCallable condition }
    ensures { (pair : K × V) × (pair_in node.now ≡ Some pair)
        × AnswersPair C.FnMut condition pair.0 pair.1 result }
{
    match node {
        Node::Pair { key, value, .. } => condition(key, value),
        _ => unreachable!(),
    }
}

fn modified<K, V, F: FnMut(&K, &V) -> V>(node: &Node<K, V>, mut modifier: F) -> V
    requires pair { IsSome (pair_in node.now) }
    requires callable { F.IsAlwaysCallable modifier }
    ensures { (pair : K × V) × (pair_in node.now ≡ Some pair)
        × AnswersPair F.FnMut modifier pair.0 pair.1 result }
{
    match node {
        Node::Pair { key, value, .. } => modifier(key, value),
        _ => unreachable!(),
    }
}
