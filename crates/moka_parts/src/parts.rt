//! A table in parts whose history has no name.
ghost use Rattle.std.specs.Prelude.{◌≡◌, ◌<◌, true, Option, Some, None, IfNone, IfSome, IfOk};
ghost use denote.Ref.{Bor};
ghost use Rattle.std.specs.List.{IsDistinct};
ghost use Rattle.std.specs.Set.{is_member};
ghost use Rattle.moka_parts.specs.Calls.{Judged, ShownSome, Stays};
ghost use Rattle.moka_parts.specs.Hashing.{part_in};

use crate::bare::Bare;
use crate::counted::len_of;
use crate::open_book::PARTS;
use crate::placing::part_of;
use crate::{Anything, Fact, SharedTable};
use moka_values::Exact;
use std::alloc::{AllocError, Global};
use std::hash::{BuildHasher, Hash};
use std::marker::Model;
use std::sync::{Mutex, Wait};

/// A table of 64 maps, each under a lock of its own. What is stored owes the fact F. Contracts see
/// its hash builder.
///
/// What leaves a part comes beside its answer, and is dropped once the lock is free, which is held
/// no longer than the line that takes it.
#[derive(Drop)]
pub struct Parts<K: Eq + Hash, V, S: BuildHasher, F: Fact<K, V> = Anything> {
    hasher: S,
    parts: Vec<Mutex<Bare<K, V, S, F>>>,
}

impl<K: Eq + Hash, V, S: BuildHasher, F: Fact<K, V>> Model for Parts<K, V, S, F> {
    ghost use Rattle.std.specs.Prelude.{◌≡◌, length};

    ghost Value = { S };

    ghost view = { λ t. t.hasher };

    ghost invariant = { λ t. length t.parts.items ≡ 64 };
}

impl<K: Eq + Hash, V, S: BuildHasher + Clone + Drop, F: Fact<K, V>> Parts<K, V, S, F> {
    /// A table without pairs. It is an error only where memory is wanting.
    pub fn new(alloc: Global, hasher: S) -> Result<Self, AllocError>
    where
        K: Drop,
        V: Drop,
        ensures { IfOk result (λ table. table ≡ hasher) }
    {
        let mut parts = Vec::with_capacity(alloc, PARTS)?;
        for _number in 0..PARTS {
            let hasher = hasher.clone()?;
            parts.push_reserved(Mutex::new(Bare::new(alloc, hasher)));
        }
        Ok(Parts { hasher, parts })
    }
}

impl<K: Eq + Hash, V, S: BuildHasher, F: Fact<K, V>> Parts<K, V, S, F> {
    /// The part of the key.
    pub fn part_of(&self, key: &K) -> usize
        ensures part { result
            ≡ part_in S.BuildHasher S.Hasher.Hasher K.hash_input self.now key.now }
        ensures small { result < 64 }
    {
        part_of(&self.hasher, key)
    }

    /// Lends the pair at the key to the closure, and answers what it gives. The closure is called
    /// under the lock of the part, and may not call the table.
    pub fn look<R: Wait, T, W: FnOnce(Option<(&K, &V)>) -> T>(&self, rt: &R, key: &K, with: W) -> T
        requires callable { (shown : Option (Bor K × Bor V))
            → IfSome shown (λ p. F.holds key.now p.1.now) → W.pre with shown }
        ensures shown { ShownSome W.FnOnce with
            (λ found. IfSome found (λ p. F.holds key.now p.1)) result }
    {
        let number = self.part_of(key);
        let guard = self.parts[number].lock(rt);
        let part = &*guard;
        with(part.find(key))
    }

    /// Puts the pair, whose key takes the place of the stored one. Answers what the closure gives,
    /// which is lent the pair that stood there under the lock of the part, and may not call the
    /// table. An error comes where memory is wanting, and the table is as before.
    pub fn put<R: Wait, T, W: FnOnce(Option<(&K, &V)>) -> T>(
        &self,
        rt: &R,
        key: K,
        value: V,
        with: W,
    ) -> Result<T, AllocError>
    where
        K: Drop,
        V: Drop,
        requires fact { F.holds key value }
        requires callable { (shown : Option (Bor K × Bor V))
            → IfSome shown (λ p. F.holds key p.1.now) → W.pre with shown }
        ensures shown { IfOk result (ShownSome W.FnOnce with
            (λ before. IfSome before (λ p. F.holds key p.1))) }
    {
        let number = self.part_of(&key);
        let (answer, _left) = self.parts[number].lock(rt).put(key, value, with);
        answer
    }

    /// Puts the pair where none stands at the key: answers None, or a copy of the value that stands
    /// there. It is an error where memory is wanting, and the table is as before.
    pub fn put_if_absent<R: Wait>(&self, rt: &R, key: K, value: V) -> Result<Option<V>, AllocError>
    where
        K: Drop,
        V: Exact + Drop,
        requires fact { F.holds key value }
        ensures fact { IfOk result (λ there. IfSome there (F.holds key)) }
    {
        let number = self.part_of(&key);
        let (answer, _left) = self.parts[number].lock(rt).put_if_absent(key, value);
        answer
    }

    /// Copies of the keys of a part, each once, as they stand while its lock is held. It is an
    /// error only where memory is wanting.
    pub fn keys<R: Wait>(&self, rt: &R, alloc: Global, number: usize) -> Result<Vec<K>, AllocError>
    where
        K: Exact + Drop,
        requires part { number < 64 }
        ensures distinct { IfOk result (λ keys. IsDistinct K.eq keys.items) }
        ensures of_part { IfOk result (λ keys. (q : K) → is_member K.eq keys.items q ≡ true
            → part_in S.BuildHasher S.Hasher.Hasher K.hash_input self.now q ≡ number) }
        ensures fact { IfOk result (λ keys. (q : K) → is_member K.eq keys.items q ≡ true
            → (v : V) × F.holds q v) }
    {
        let guard = self.parts[number].lock(rt);
        let part = &*guard;
        part.keys(alloc, &self.hasher, number)
    }

    /// Takes the pair at the key out, where the condition holds of it, and answers it. The
    /// condition is asked under the lock of the part, and may not call the table.
    pub fn take_out_if<R: Wait, C: FnOnce(&K, &V) -> bool>(
        &self,
        rt: &R,
        key: &K,
        condition: C,
    ) -> Option<(K, V)>
    where
        K: Drop,
        requires callable { (k : Bor K) (v : Bor V) → F.holds key.now v.now
            → C.pre condition k v }
        ensures none { IfNone result ((found : Option (K × V)) × Stays C.FnOnce condition found) }
        ensures out { IfSome result (λ p. Judged C.FnOnce condition p true) }
        ensures fact { IfSome result (λ p. F.holds key.now p.1) }
    {
        let number = self.part_of(key);
        let (answer, _left) = self.parts[number].lock(rt).take_out_if(key, condition);
        answer
    }

    /// How many pairs there are. The parts are counted one after the other, so it is exact only
    /// while nobody else changes the table.
    pub fn len<R: Wait>(&self, rt: &R) -> u64 {
        len_of(rt, &self.parts)
    }
}

/// The seat of a table whose history has no name: it says nothing of what was seen.
#[derive(Drop)]
pub struct NoSeat;

impl<K: Eq + Hash, V, S: BuildHasher, F: Fact<K, V>> SharedTable<K, V> for Parts<K, V, S, F> {
    type Seat = NoSeat;

    ghost part = { λ t key. part_in S.BuildHasher S.Hasher.Hasher K.hash_input t key };

    ghost holds = { F.holds };

    ghost grows = { λ old new. Unit {0} };

    ghost rests = { λ old new. Unit {0} };

    ghost has = { λ seat key found. Unit {0} };

    ghost adds = { λ old key put before new. Unit {0} };

    fn part_of(&self, key: &K) -> usize {
        self.part_of(key)
    }

    fn seat(&self) -> NoSeat {
        NoSeat
    }

    fn look<R: Wait, T, W: FnOnce(Option<(&K, &V)>) -> T>(
        &self,
        rt: &R,
        _seat: &mut NoSeat,
        key: &K,
        with: W,
    ) -> Result<T, AllocError> {
        Ok(self.look(rt, key, with))
    }

    fn put<R: Wait, T, W: FnOnce(Option<(&K, &V)>) -> T>(
        &self,
        rt: &R,
        _seat: &mut NoSeat,
        key: K,
        value: V,
        with: W,
    ) -> Result<T, AllocError>
    where
        K: Drop,
        V: Drop,
    {
        self.put(rt, key, value, with)
    }

    fn put_if_absent<R: Wait>(
        &self,
        rt: &R,
        _seat: &mut NoSeat,
        key: K,
        value: V,
    ) -> Result<Option<V>, AllocError>
    where
        K: Drop,
        V: Exact + Drop,
    {
        self.put_if_absent(rt, key, value)
    }

    fn take_out_if<R: Wait, C: FnOnce(&K, &V) -> bool>(
        &self,
        rt: &R,
        _seat: &mut NoSeat,
        key: &K,
        condition: C,
    ) -> Result<Option<(K, V)>, AllocError>
    where
        K: Drop,
    {
        Ok(self.take_out_if(rt, key, condition))
    }

    fn keys<R: Wait>(
        &self,
        rt: &R,
        alloc: Global,
        _seat: &mut NoSeat,
        number: usize,
    ) -> Result<Vec<K>, AllocError>
    where
        K: Exact + Drop,
    {
        self.keys(rt, alloc, number)
    }

    fn meet(&self, _a: &mut NoSeat, _b: &mut NoSeat) {}

    fn parts(&self) -> usize {
        PARTS
    }

    fn len<R: Wait>(&self, rt: &R) -> u64 {
        self.len(rt)
    }
}
