//! A table in parts whose history has a name.
ghost use Rattle.std.specs.Prelude.{◌≡◌, [], Option, Some, None, IfOk};
ghost use mathlib.Core.List.{IsPrefix};
ghost use Rattle.moka_parts.specs.Changes.{map_after, IsLegal};
ghost use Rattle.moka_parts.specs.Hashing.{part_in};
ghost use Rattle.moka_parts.specs.Hands.{made};
ghost use Rattle.moka_parts.specs.Tables.{history, own, Adds, Rests};

use crate::book::{Law, Naming};
use crate::counted::len_of;
use crate::front::Front;
use crate::open_book::{OpenBook, PARTS};
use crate::own::Own;
use crate::part::Part;
use crate::placing::part_of;
use crate::{Anything, Fact, Note, SharedTable};
use logbook::Word;
use moka_values::Exact;
use std::alloc::{AllocError, Global};
use std::hash::{BuildHasher, Hash};
use std::marker::Model;
use std::sync::{Mutex, Wait};

/// What one caller has seen of the history of the book that J names, and what it has of its own: its
/// first ticket, the one that it has now, and the changes that it has made. Contracts see both.
#[derive(Drop)]
pub struct NamedSeat<K: Eq + Hash, V, S: BuildHasher, J: Naming> {
    pub(crate) front: Front<K, V, S, J>,
    pub(crate) own: Own<K, V, S, J>,
}

impl<K: Eq + Hash, V, S: BuildHasher, J: Naming> Model for NamedSeat<K, V, S, J> {
    ghost use Rattle.moka_parts.specs.Logs.{changes_in};
    ghost use Rattle.moka_parts.specs.Tables.{Sight};

    ghost Value = { Sight K V };

    ghost view = { λ s. (changes_in s.front, s.own) };
}

impl<K: Eq + Hash, V, S: BuildHasher, J: Naming> NamedSeat<K, V, S, J> {
    /// What was seen is a legal history: each change names as the former pair the one that stood
    /// there.
    pub fn is_legal(&self)
        ensures { IsLegal K.eq (history self.now) }
    {
        self.front.is_legal();
    }
}

/// A table of 64 maps, each under a lock of its own, whose changes stand in the one history of the
/// book that J names. What is stored owes the fact F. Contracts see its hash builder.
///
/// Its calls are those of `SharedTable`, whose clauses say the whole of it: `grows`, `rests`, `has`
/// and `adds` stand below. What leaves a part comes beside its answer, and is dropped once the lock
/// is free, which is held no longer than the line that takes it.
#[derive(Drop)]
pub struct NamedParts<K: Eq + Hash, V, S: BuildHasher, J: Naming, F: Fact<K, V> = Anything> {
    hasher: S,
    start: Front<K, V, S, J>,
    door: Word<Note<K, V, S>, u64, Law>,
    parts: Vec<Mutex<Part<K, V, S, J, F>>>,
}

impl<K: Eq + Hash, V, S: BuildHasher, J: Naming, F: Fact<K, V>> Model
    for NamedParts<K, V, S, J, F> {
    ghost use Rattle.std.specs.Prelude.{◌≡◌, [], ◌∷◌, length};
    ghost use Rattle.moka_parts.specs.declared.note.Note.TheVariants.{Opened};

    ghost Value = { S };

    ghost view = { λ t. t.hasher };

    ghost use Rattle.moka_parts.specs.Rules.{word_of};

    ghost invariant = { λ t. (t.start ≡ Opened t.hasher ∷ []) × (length t.parts.items ≡ 64)
        × (t.door ≡ word_of J.book 64) };
}

impl<K: Eq + Hash, V, S: BuildHasher, J: Naming, F: Fact<K, V>> NamedParts<K, V, S, J, F> {
    /// A seat that has seen nothing and made no change. It takes no memory, and waits for nobody.
    pub fn seat(&self) -> NamedSeat<K, V, S, J>
        ensures seen { history result ≡ [] }
        ensures made { made (own result) ≡ [] }
    {
        let mut last = self.start.again();
        let (first, ticket) = last.draw(&self.door, PARTS);
        NamedSeat {
            front: self.start.again(),
            own: Own::new(first, ticket, last),
        }
    }
}

impl<K: Eq + Hash, V, S: BuildHasher + Clone + Drop, J: Naming, F: Fact<K, V>> NamedParts<
    K,
    V,
    S,
    J,
    F,
> {
    /// A table without pairs, whose history is the book's. It is an error only where memory is
    /// wanting.
    pub fn new(alloc: Global, book: OpenBook<K, V, S>) -> Result<Self, AllocError>
    where
        K: Drop,
        V: Drop,
        requires named { book.0 ≡ J.book }
        ensures { IfOk result (λ table. table ≡ book.1) }
    {
        let OpenBook {
            hasher,
            seen,
            mut pens,
        } = book;
        let start = Front::of(seen);
        let mut parts = Vec::with_capacity(alloc, PARTS)?;
        for number in 0..PARTS {
            let hasher = hasher.clone()?;
            let part = Part::new(alloc, number, hasher, &start, pens.take());
            parts.push_reserved(Mutex::new(part));
        }
        let door = Word::tracked(0, &mut pens.take());
        Ok(NamedParts {
            hasher,
            start,
            door,
            parts,
        })
    }
}

impl<K: Eq + Hash, V, S: BuildHasher, J: Naming, F: Fact<K, V>> SharedTable<K, V>
    for NamedParts<K, V, S, J, F> {
    type Seat = NamedSeat<K, V, S, J>;

    ghost part = { λ t key. part_in S.BuildHasher S.Hasher.Hasher K.hash_input t key };

    ghost holds = { F.holds };

    ghost grows = { λ old new. IsPrefix (history old) (history new) };

    ghost rests = { λ old new. Rests old new };

    ghost has = { λ seat key found. found ≡ map_after K.eq (history seat) key };

    ghost adds = { λ old key put before new. Adds key put before old new };

    fn part_of(&self, key: &K) -> usize {
        part_of(&self.hasher, key)
    }

    fn seat(&self) -> NamedSeat<K, V, S, J> {
        self.seat()
    }

    fn look<R: Wait, T, W: FnOnce(Option<(&K, &V)>) -> T>(
        &self,
        rt: &R,
        seat: &mut NamedSeat<K, V, S, J>,
        key: &K,
        with: W,
    ) -> Result<T, AllocError> {
        let number = part_of(&self.hasher, key);
        let guard = self.parts[number].lock(rt);
        let part = &*guard;
        match part.find(number, &self.start, &mut seat.front, key) {
            Some(found) => Ok(with(found)),
            None => Err(AllocError),
        }
    }

    fn put<R: Wait, T, W: FnOnce(Option<(&K, &V)>) -> T>(
        &self,
        rt: &R,
        seat: &mut NamedSeat<K, V, S, J>,
        key: K,
        value: V,
        with: W,
    ) -> Result<T, AllocError>
    where
        K: Drop,
        V: Drop,
    {
        let number = part_of(&self.hasher, &key);
        let (answer, _left) = self.parts[number].lock(rt).put(
            number,
            &self.start,
            &mut seat.front,
            &mut seat.own,
            key,
            value,
            with,
        );
        answer
    }

    fn put_if_absent<R: Wait>(
        &self,
        rt: &R,
        seat: &mut NamedSeat<K, V, S, J>,
        key: K,
        value: V,
    ) -> Result<Option<V>, AllocError>
    where
        K: Drop,
        V: Exact + Drop,
    {
        let number = part_of(&self.hasher, &key);
        let (answer, _left) = self.parts[number].lock(rt).put_if_absent(
            number,
            &self.start,
            &mut seat.front,
            &mut seat.own,
            key,
            value,
        );
        answer
    }

    fn take_out_if<R: Wait, C: FnOnce(&K, &V) -> bool>(
        &self,
        rt: &R,
        seat: &mut NamedSeat<K, V, S, J>,
        key: &K,
        condition: C,
    ) -> Result<Option<(K, V)>, AllocError>
    where
        K: Drop,
    {
        let number = part_of(&self.hasher, key);
        let (answer, _left) = self.parts[number].lock(rt).take_out_if(
            number,
            &self.start,
            &mut seat.front,
            &mut seat.own,
            key,
            condition,
        );
        answer
    }

    fn keys<R: Wait>(
        &self,
        rt: &R,
        alloc: Global,
        seat: &mut NamedSeat<K, V, S, J>,
        number: usize,
    ) -> Result<Vec<K>, AllocError>
    where
        K: Exact + Drop,
    {
        let guard = self.parts[number].lock(rt);
        let part = &*guard;
        part.keys(alloc, number, &self.start, &mut seat.front)
    }

    fn meet(&self, a: &mut NamedSeat<K, V, S, J>, b: &mut NamedSeat<K, V, S, J>) {
        a.front.learn(&b.front);
        b.front.learn(&a.front);
    }

    fn parts(&self) -> usize {
        PARTS
    }

    fn len<R: Wait>(&self, rt: &R) -> u64 {
        len_of(rt, &self.parts)
    }
}
