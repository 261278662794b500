//! A step of a table that grows: the array that was linked after a segment's first one gets the words of its
//! layout.
ghost use Rattle.std.specs.Prelude.{◌≡◌, ◌<◌, ◌≤◌, ◌∷◌, [], ◌++◌, ℕ, Some, length, vec_capacity, IfErr, IfOk, OnErr, OnOk};
ghost use Rattle.std.specs.Int.{IsPowerOfTwo};
ghost use mathlib.Core.List.{IsPrefix};
ghost use Rattle.moka_history.specs.Entries.{IsLegal};
ghost use Rattle.moka_history.specs.Keeping.{IsSmall};
ghost use Rattle.moka_history.specs.Logs.{entries_of, state_of};
ghost use Rattle.moka_growth.specs.Growing.{laid_out};
ghost use Rattle.moka_words.specs.Words.{stored_in};
ghost use Rattle.moka_shelf.specs.Looks.{Hiding, hiding};
ghost use Rattle.moka_shared.specs.Changes.{AreMade};
ghost use Rattle.moka_shared.specs.Fills.{AreFew, FillsSo, HasHash, HasKept, IsHiddenNode, IsLaid, KeepsNode};
ghost use Rattle.moka_shared.specs.Hashing.{hash_in, place_in};
ghost use Rattle.moka_shared.specs.Links.{Follows, keys_in};
ghost use Rattle.moka_shared.specs.Meeting.{Hides};
ghost use Rattle.moka_shared.specs.Probing.{GoesOn, IsLogOf};
ghost use Rattle.moka_shared.specs.Rows.{AreRow};
ghost use Rattle.moka_shared.specs.Swings.{AreSet};
ghost use Rattle.moka_shared.specs.declared.answers.TryFill.TheVariants.{Filled, Memory};

use crate::Fact;
use crate::answers::{Missed, TryFill};
use crate::book::Law;
use crate::node::Node;
use crate::row::Row;
use crate::seat::Seat;
use crate::table::HashMap;
use crate::words::stored_in;
use logbook::Seen;
use moka_calls::lay_out;
use moka_history::Note;
use moka_shelf::Shelf;
use moka_words::Word;
use std::alloc::Global;
use std::hash::{BuildHasher, Hash};

/// An array that follows has at most so many words.
const MOST: usize = 1 << 61;

// The words of an array of this length in which these nodes stand. Longer than 2^61 is want of memory.
fn laid(alloc: Global, kept: &[(u64, u64)], count: usize) -> Result<Vec<Word>, TryFill>
    requires power { IsPowerOfTwo count }
    ensures laid { IfOk result (λ laid. laid.items ≡ laid_out kept.now count) }
    ensures long { IfOk result (λ laid. length laid.items ≡ count) }
    ensures memory { IfErr result (λ why. why ≡ Memory) }
{
    if count > MOST {
        return Err(TryFill::Memory);
    }
    match lay_out(alloc, kept, count) {
        Ok(laid) => Ok(laid),
        Err(_) => Err(TryFill::Memory),
    }
}

impl<K: Eq + Hash, V, S: BuildHasher, P: Fact<K, V>, L: Shelf<Node<K, V, S, P>>> HashMap<
    K,
    V,
    S,
    P,
    L,
> {
    /// Copies into the array that was linked of the row what the segment's first array stores: each
    /// word that is unset becomes the one that the array's layout has there. `Again` comes where the
    /// shelf hides a node that is stored (`Missed::NodeHidden`), `Memory` where there is none to lay
    /// the array out. Then no word was copied.
    pub fn try_fill(
        &self,
        alloc: Global,
        seat: &mut Seat<K, V, S, L::Look>,
        segment: usize,
        row: &Row<K, V, S>,
    ) -> TryFill
        requires seat { seat.old.front.book ≡ self.now.book }
        requires segment { segment < self.now.segments }
        requires row { AreRow self.now.book row.now.ticket row.now.words.items
            seat.old.front.log }
        requires follows { Follows segment row.now.ticket (keys_in row.now.words.items)
            seat.old.front.log }
        ensures seat { seat.new.front.book ≡ self.now.book }
        ensures mine { (seat.new.mine ≡ seat.old.mine) × (seat.new.drawn ≡ seat.old.drawn) }
        ensures history { IsPrefix seat.old.front.log seat.new.front.log }
        ensures legal { IsLegal K.eq (entries_of seat.new.front.log) }
        ensures made { AreMade seat.old.mine.numbers (entries_of seat.old.front.log)
            → AreMade seat.new.mine.numbers (entries_of seat.new.front.log) }
        ensures follows { Follows segment row.now.ticket (keys_in row.now.words.items)
            seat.new.front.log }
        ensures row { AreRow self.now.book row.now.ticket row.now.words.items
            seat.new.front.log }
        ensures fills { FillsSo segment seat.new.front.log (hiding L.hidden L.last seat.old.hidden)
            (hiding L.hidden L.last seat.new.hidden) row.now.ticket (length row.now.words.items)
            result }
    {
        seat.front.learn(&self.start);
        self.fill(alloc, &mut seat.front, &mut seat.hidden, segment, row)
    }

    // The same, by a front of the history.
    fn fill(
        &self,
        alloc: Global,
        front: &mut Seen<Note<K, V, S>, u64, Law>,
        hidden: &mut L::Look,
        segment: usize,
        row: &Row<K, V, S>,
    ) -> TryFill
        requires book { front.old.book ≡ self.now.book }
        requires log { IsLogOf K.eq (hash_in S.BuildHasher S.Hasher.Hasher K.hash_input)
            (place_in S.BuildHasher S.Hasher.Hasher K.hash_input) self.now front.old.log }
        requires segment { segment < self.now.segments }
        requires row { AreRow self.now.book row.now.ticket row.now.words.items front.old.log }
        requires follows { Follows segment row.now.ticket (keys_in row.now.words.items)
            front.old.log }
        ensures book { front.new.book ≡ front.old.book }
        ensures goes_on { GoesOn K.eq (hash_in S.BuildHasher S.Hasher.Hasher K.hash_input)
            (place_in S.BuildHasher S.Hasher.Hasher K.hash_input) self.now
            front.old.log front.new.log }
        ensures fills { FillsSo segment front.new.log (hiding L.hidden L.last hidden.old)
            (hiding L.hidden L.last hidden.new) row.now.ticket (length row.now.words.items)
            result }
    {
        let Ok(kept) = Vec::with_capacity(alloc, self.size) else {
            return TryFill::Memory;
        };
        match self.keep_nodes(front, hidden, segment, row, kept) {
            Ok(kept) => self.copy_kept(alloc, front, segment, row, &kept),
            Err(number) => TryFill::Again(Missed::NodeHidden(number)),
        }
    }

    // Lays these nodes out, which the words of the first array store, and copies each word.
    fn copy_kept(
        &self,
        alloc: Global,
        front: &mut Seen<Note<K, V, S>, u64, Law>,
        segment: usize,
        row: &Row<K, V, S>,
        kept: &[(u64, u64)],
    ) -> TryFill
        requires book { front.old.book ≡ self.now.book }
        requires log { IsLogOf K.eq (hash_in S.BuildHasher S.Hasher.Hasher K.hash_input)
            (place_in S.BuildHasher S.Hasher.Hasher K.hash_input) self.now front.old.log }
        requires segment { segment < self.now.segments }
        requires row { AreRow self.now.book row.now.ticket row.now.words.items front.old.log }
        requires follows { Follows segment row.now.ticket (keys_in row.now.words.items)
            front.old.log }
        requires kept { HasKept K.eq (hash_in S.BuildHasher S.Hasher.Hasher K.hash_input)
            (place_in S.BuildHasher S.Hasher.Hasher K.hash_input) self.now segment self.now.size
            kept.now front.old.log }
        requires few { AreFew kept.now }
        ensures book { front.new.book ≡ front.old.book }
        ensures goes_on { GoesOn K.eq (hash_in S.BuildHasher S.Hasher.Hasher K.hash_input)
            (place_in S.BuildHasher S.Hasher.Hasher K.hash_input) self.now
            front.old.log front.new.log }
        ensures fills { (looked : Hiding) → FillsSo segment front.new.log looked looked
            row.now.ticket (length row.now.words.items) result }
    {
        let count = row.len();
        match laid(alloc, kept, count) {
            Ok(laid) => self.copy_all(front, segment, row, &laid),
            Err(why) => why,
        }
    }

    // Loads each word of the first array, which are all sealed. Answers the nodes that they store, with
    // their hashes, or that of one which was hidden.
    fn keep_nodes(
        &self,
        front: &mut Seen<Note<K, V, S>, u64, Law>,
        hidden: &mut L::Look,
        segment: usize,
        row: &Row<K, V, S>,
        mut kept: Vec<(u64, u64)>,
    ) -> Result<Vec<(u64, u64)>, u64>
        requires book { front.old.book ≡ self.now.book }
        requires log { IsLogOf K.eq (hash_in S.BuildHasher S.Hasher.Hasher K.hash_input)
            (place_in S.BuildHasher S.Hasher.Hasher K.hash_input) self.now front.old.log }
        requires segment { segment < self.now.segments }
        requires follows { Follows segment row.now.ticket (keys_in row.now.words.items)
            front.old.log }
        requires none { kept.items ≡ [] }
        requires room { self.now.size ≤ vec_capacity kept }
        ensures book { front.new.book ≡ front.old.book }
        ensures goes_on { GoesOn K.eq (hash_in S.BuildHasher S.Hasher.Hasher K.hash_input)
            (place_in S.BuildHasher S.Hasher.Hasher K.hash_input) self.now
            front.old.log front.new.log }
        ensures follows { Follows segment row.now.ticket (keys_in row.now.words.items)
            front.new.log }
        ensures kept { IfOk result (λ kept. HasKept K.eq
            (hash_in S.BuildHasher S.Hasher.Hasher K.hash_input)
            (place_in S.BuildHasher S.Hasher.Hasher K.hash_input) self.now segment self.now.size
            kept.items front.new.log) }
        ensures few { IfOk result (λ kept. AreFew kept.items) }
        ensures shown { OnOk result (hiding L.hidden L.last hidden.new
            ≡ hiding L.hidden L.last hidden.old) }
        ensures hidden { IfErr result (IsHiddenNode segment front.new.log
            (hiding L.hidden L.last hidden.old) (hiding L.hidden L.last hidden.new)) }
    {
        let _row = row;
        let mut index = 0;
        while index < self.size {
            let word = self.load(front, segment, index);
            match self.keep(front, hidden, word, &mut kept) {
                Ok(()) => {}
                Err(number) => return Err(number),
            }
            index += 1;
        }
        Ok(kept)
    }

    // Keeps the node that the word stores, with the hash of its key. Answers its number where it is hidden.
    fn keep(
        &self,
        front: &Seen<Note<K, V, S>, u64, Law>,
        hidden: &mut L::Look,
        word: Word,
        kept: &mut Vec<(u64, u64)>,
    ) -> Result<(), u64>
        requires book { front.now.book ≡ self.now.book }
        requires some { 0 < length front.now.log }
        requires named { (n : ℕ) → stored_in word ≡ Some n
            → (p : K × V) × ((state_of front.now.log).pairs n ≡ Some p) }
        requires room { length kept.old.items < vec_capacity kept.old }
        ensures keeps { OnOk result (KeepsNode
            (hash_in S.BuildHasher S.Hasher.Hasher K.hash_input self.now.hasher)
            (state_of front.now.log).pairs word kept.old.items kept.new.items) }
        ensures room { vec_capacity kept.new ≡ vec_capacity kept.old }
        ensures shown { OnOk result (hiding L.hidden L.last hidden.new
            ≡ hiding L.hidden L.last hidden.old) }
        ensures hidden { IfErr result (λ n. (stored_in word ≡ Some n)
            × Hides n (hiding L.hidden L.last hidden.old) (hiding L.hidden L.last hidden.new)) }
    {
        match stored_in(word) {
            None => Ok(()),
            Some(number) => self.keep_node(front, hidden, number, kept),
        }
    }

    // Keeps this node, with the hash of its key.
    fn keep_node(
        &self,
        front: &Seen<Note<K, V, S>, u64, Law>,
        hidden: &mut L::Look,
        number: u64,
        kept: &mut Vec<(u64, u64)>,
    ) -> Result<(), u64>
        requires book { front.now.book ≡ self.now.book }
        requires some { 0 < length front.now.log }
        requires named { (p : K × V) × ((state_of front.now.log).pairs number ≡ Some p) }
        requires room { length kept.old.items < vec_capacity kept.old }
        ensures keeps { OnOk result ((h : ℕ) → HasHash
            (hash_in S.BuildHasher S.Hasher.Hasher K.hash_input self.now.hasher)
            (state_of front.now.log).pairs number h
            → kept.new.items ≡ kept.old.items ++ (number, h) ∷ []) }
        ensures room { vec_capacity kept.new ≡ vec_capacity kept.old }
        ensures shown { OnOk result (hiding L.hidden L.last hidden.new
            ≡ hiding L.hidden L.last hidden.old) }
        ensures hidden { IfErr result (λ n. (n ≡ number)
            × Hides n (hiding L.hidden L.last hidden.old) (hiding L.hidden L.last hidden.new)) }
    {
        match self.shelf.shown(hidden, number) {
            None => Err(number),
            Some(node) => {
                node.is_named(front);
                let hash = self.hash(node.key());
                kept.push_reserved((number, hash));
                Ok(())
            }
        }
    }

    // Copies each word that is laid out into the row's array, where it is unset.
    fn copy_all(
        &self,
        front: &mut Seen<Note<K, V, S>, u64, Law>,
        segment: usize,
        row: &Row<K, V, S>,
        laid: &Vec<Word>,
    ) -> TryFill
        requires book { front.old.book ≡ self.now.book }
        requires log { IsLogOf K.eq (hash_in S.BuildHasher S.Hasher.Hasher K.hash_input)
            (place_in S.BuildHasher S.Hasher.Hasher K.hash_input) self.now front.old.log }
        requires segment { segment < self.now.segments }
        requires row { AreRow self.now.book row.now.ticket row.now.words.items front.old.log }
        requires follows { Follows segment row.now.ticket (keys_in row.now.words.items)
            front.old.log }
        requires laid { IsLaid K.eq (hash_in S.BuildHasher S.Hasher.Hasher K.hash_input)
            (place_in S.BuildHasher S.Hasher.Hasher K.hash_input) self.now segment
            (length row.now.words.items) laid.now.items front.old.log }
        requires long { length laid.now.items ≡ length row.now.words.items }
        ensures book { front.new.book ≡ front.old.book }
        ensures goes_on { GoesOn K.eq (hash_in S.BuildHasher S.Hasher.Hasher K.hash_input)
            (place_in S.BuildHasher S.Hasher.Hasher K.hash_input) self.now
            front.old.log front.new.log }
        ensures set { AreSet row.now.ticket (length row.now.words.items) front.new.log }
        ensures filled { result ≡ Filled }
    {
        let count = row.len();
        let mut index = 0;
        while index < count {
            self.copy_at(front, segment, row, index, laid[index]);
            index += 1;
        }
        TryFill::Filled
    }
}
