//! Further steps of a table that grows: a row is linked as the array after a segment's first one, and a
//! word is copied into it.
ghost use Rattle.std.specs.Prelude.{◌≡◌, ℕ, ◌<◌, ◌≤◌, ◌^◌, Some, false, is_some, length, true, IfErr, IfOk};
ghost use mathlib.Core.List.{IsPrefix};
ghost use Rattle.moka_history.specs.Entries.{IsLegal};
ghost use Rattle.moka_growth.specs.Growing.{next_size};
ghost use Rattle.moka_history.specs.Keeping.{IsSmall};
ghost use Rattle.moka_history.specs.Logs.{entries_of};
ghost use Rattle.moka_words.specs.Words.{stored_in};
ghost use Rattle.moka_shared.specs.Changes.{AreMade};
ghost use Rattle.moka_shared.specs.Hashing.{hash_in, place_in};
ghost use Rattle.moka_shared.specs.Links.{Copies, Follows, HasSealed, IsOpenAt, LinksSo, WantsCopy, WantsLink, keys_in};
ghost use Rattle.moka_shared.specs.Probing.{GoesOn, IsLogOf};
ghost use Rattle.moka_shared.specs.Rows.{AreRow, HoldsTicket, IsBehind, plan_for};

use crate::Fact;
use crate::answers::TryLink;
use crate::asked::{Copying, Linking};
use crate::book::Law;
use crate::links::{copy, link};
use crate::node::Node;
use crate::row::Row;
use crate::seat::Seat;
use crate::table::HashMap;
use crate::words::{is_sealed, number_of, stored_in};
use boxcar::tag::{Names, Tag};
use logbook::{Seen, Word as Bucket};
use moka_history::Note;
use moka_shelf::Shelf;
use moka_words::Word;
use std::hash::{BuildHasher, Hash};

// How long the array is that follows one of this length, in which so many words store a node.
fn next_size(size: usize, stored: usize) -> usize
    requires size { size ≤ 2 ^ 60 }
    requires few { stored ≤ size }
    ensures { (array : ℕ) → result ≡ next_size (Some array) size stored }
{
    if 7 * size < 10 * stored {
        return 2 * size;
    }
    size
}

// How many nodes the word stores.
fn stores(word: Word) -> usize
    ensures few { result ≤ 1 }
    ensures is { (is_some (stored_in word) ≡ true → result ≡ 1)
        × (is_some (stored_in word) ≡ false → result ≡ 0) }
{
    match stored_in(word) {
        Some(_) => 1,
        None => 0,
    }
}

/// The key of a word.
pub struct Key;

impl<K: Eq + Hash, V, S: BuildHasher> Names<Bucket<Note<K, V, S>, u64, Law>> for Key {
    ghost use Rattle.std.specs.Prelude.{[], ◌∷◌};

    ghost numbers = { λ word. word.key ∷ [] };
}

/// The keys of words.
pub struct Keys;

impl<K: Eq + Hash, V, S: BuildHasher> Names<Vec<Bucket<Note<K, V, S>, u64, Law>>> for Keys {
    ghost use Rattle.moka_shared.specs.Links.{keys_in};

    ghost numbers = { λ words. keys_in words.items };
}

impl<K: Eq + Hash, V, S: BuildHasher, P: Fact<K, V>, L: Shelf<Node<K, V, S, P>>> HashMap<
    K,
    V,
    S,
    P,
    L,
> {
    /// Links the row as the array after the segment's first one, by one exchange of the word for it,
    /// and brings its ticket home. First it loads each word of the first array. `Open` comes where one
    /// isn't sealed, `Length` where an array that follows has another length than the row, and
    /// `There` where one was linked before. Then the row stays what it was.
    pub fn try_link(
        &self,
        seat: &mut Seat<K, V, S, L::Look>,
        segment: usize,
        row: &mut Row<K, V, S>,
    ) -> TryLink
        requires seat { seat.old.front.book ≡ self.now.book }
        requires segment { segment < self.now.segments }
        requires pen { row.old.pen.book ≡ self.now.book }
        requires row { AreRow self.now.book row.old.ticket row.old.words.items
            seat.old.front.log }
        requires behind { IsBehind self.now.book row.old.ticket row.old.words.items row.old.behind
            seat.old.front.log }
        requires announced { HoldsTicket row.old.ticket
            (plan_for segment (length row.old.words.items)) row.old.pen.nib seat.old.front.log }
        ensures seat { seat.new.front.book ≡ self.now.book }
        ensures mine { (seat.new.mine ≡ seat.old.mine) × (seat.new.drawn ≡ seat.old.drawn) }
        ensures hidden { seat.new.hidden ≡ seat.old.hidden }
        ensures history { IsPrefix seat.old.front.log seat.new.front.log }
        ensures legal { IsLegal K.eq (entries_of seat.new.front.log) }
        ensures made { AreMade seat.old.mine.numbers (entries_of seat.old.front.log)
            → AreMade seat.new.mine.numbers (entries_of seat.new.front.log) }
        ensures row { (row.new.ticket ≡ row.old.ticket) × (row.new.words ≡ row.old.words)
            × (row.new.behind ≡ row.old.behind) × (row.new.pen.book ≡ row.old.pen.book) }
        ensures words { AreRow self.now.book row.old.ticket row.old.words.items
            seat.new.front.log }
        ensures behind { IsBehind self.now.book row.old.ticket row.old.words.items row.old.behind
            seat.new.front.log }
        ensures announced { HoldsTicket row.old.ticket
            (plan_for segment (length row.old.words.items)) row.old.pen.nib seat.new.front.log }
        ensures links { LinksSo K.eq (hash_in S.BuildHasher S.Hasher.Hasher K.hash_input)
            (place_in S.BuildHasher S.Hasher.Hasher K.hash_input) self.now segment
            seat.old.front.log seat.new.front.log row.old.ticket (keys_in row.old.words.items)
            result }
    {
        seat.front.learn(&self.start);
        match self.count_sealed(&mut seat.front, segment) {
            Ok(stored) => self.link_after(&mut seat.front, segment, stored, row),
            Err(index) => TryLink::Open(index),
        }
    }

    // Loads each word of the segment's first array. Answers how many of them store a node, where all
    // are sealed, or else the first one that isn't.
    fn count_sealed(
        &self,
        front: &mut Seen<Note<K, V, S>, u64, Law>,
        segment: usize,
    ) -> Result<usize, usize>
        requires book { front.old.book ≡ self.now.book }
        requires log { IsLogOf K.eq (hash_in S.BuildHasher S.Hasher.Hasher K.hash_input)
            (place_in S.BuildHasher S.Hasher.Hasher K.hash_input) self.now front.old.log }
        requires segment { segment < self.now.segments }
        ensures book { front.new.book ≡ front.old.book }
        ensures goes_on { GoesOn K.eq (hash_in S.BuildHasher S.Hasher.Hasher K.hash_input)
            (place_in S.BuildHasher S.Hasher.Hasher K.hash_input) self.now
            front.old.log front.new.log }
        ensures few { IfOk result (λ stored. stored ≤ self.now.size) }
        ensures sealed { IfOk result (λ stored. HasSealed K.eq
            (hash_in S.BuildHasher S.Hasher.Hasher K.hash_input)
            (place_in S.BuildHasher S.Hasher.Hasher K.hash_input) self.now segment
            self.now.size stored front.new.log) }
        ensures open { IfErr result (λ index. IsOpenAt segment index front.new.log) }
    {
        let mut stored = 0;
        let mut index = 0;
        while index < self.size {
            let word = self.load(front, segment, index);
            if !is_sealed(word) {
                return Err(index);
            }
            stored += stores(word);
            index += 1;
        }
        Ok(stored)
    }

    // Links the row, where it is as long as the array has to be that follows one whose words are all
    // sealed, so many of them with a node.
    fn link_after(
        &self,
        front: &mut Seen<Note<K, V, S>, u64, Law>,
        segment: usize,
        stored: usize,
        row: &mut Row<K, V, S>,
    ) -> TryLink
        requires book { front.old.book ≡ self.now.book }
        requires log { IsLogOf K.eq (hash_in S.BuildHasher S.Hasher.Hasher K.hash_input)
            (place_in S.BuildHasher S.Hasher.Hasher K.hash_input) self.now front.old.log }
        requires segment { segment < self.now.segments }
        requires few { stored ≤ self.now.size }
        requires sealed { HasSealed K.eq (hash_in S.BuildHasher S.Hasher.Hasher K.hash_input)
            (place_in S.BuildHasher S.Hasher.Hasher K.hash_input) self.now segment
            self.now.size stored front.old.log }
        requires pen { row.old.pen.book ≡ self.now.book }
        requires row { AreRow self.now.book row.old.ticket row.old.words.items front.old.log }
        requires behind { IsBehind self.now.book row.old.ticket row.old.words.items row.old.behind
            front.old.log }
        requires announced { HoldsTicket row.old.ticket
            (plan_for segment (length row.old.words.items)) row.old.pen.nib front.old.log }
        ensures book { front.new.book ≡ front.old.book }
        ensures goes_on { GoesOn K.eq (hash_in S.BuildHasher S.Hasher.Hasher K.hash_input)
            (place_in S.BuildHasher S.Hasher.Hasher K.hash_input) self.now
            front.old.log front.new.log }
        ensures row { (row.new.ticket ≡ row.old.ticket) × (row.new.words ≡ row.old.words)
            × (row.new.behind ≡ row.old.behind) × (row.new.pen.book ≡ row.old.pen.book) }
        ensures links { LinksSo K.eq (hash_in S.BuildHasher S.Hasher.Hasher K.hash_input)
            (place_in S.BuildHasher S.Hasher.Hasher K.hash_input) self.now segment
            front.old.log front.new.log row.old.ticket (keys_in row.old.words.items) result }
    {
        let size = next_size(self.size, stored);
        if row.words.len() != size {
            return TryLink::Length(size);
        }
        self.link_row(front, segment, row)
    }

    // Links the row, which is as long as the array has to be that follows.
    fn link_row(
        &self,
        front: &mut Seen<Note<K, V, S>, u64, Law>,
        segment: usize,
        row: &mut Row<K, V, S>,
    ) -> TryLink
        requires book { front.old.book ≡ self.now.book }
        requires log { IsLogOf K.eq (hash_in S.BuildHasher S.Hasher.Hasher K.hash_input)
            (place_in S.BuildHasher S.Hasher.Hasher K.hash_input) self.now front.old.log }
        requires segment { segment < self.now.segments }
        requires wanted { WantsLink K.eq (hash_in S.BuildHasher S.Hasher.Hasher K.hash_input)
            (place_in S.BuildHasher S.Hasher.Hasher K.hash_input) self.now.hasher
            self.now.segments segment (length row.old.words.items) front.old.log }
        requires pen { row.old.pen.book ≡ self.now.book }
        requires row { AreRow self.now.book row.old.ticket row.old.words.items front.old.log }
        requires behind { IsBehind self.now.book row.old.ticket row.old.words.items row.old.behind
            front.old.log }
        requires announced { HoldsTicket row.old.ticket
            (plan_for segment (length row.old.words.items)) row.old.pen.nib front.old.log }
        ensures book { front.new.book ≡ front.old.book }
        ensures goes_on { GoesOn K.eq (hash_in S.BuildHasher S.Hasher.Hasher K.hash_input)
            (place_in S.BuildHasher S.Hasher.Hasher K.hash_input) self.now
            front.old.log front.new.log }
        ensures row { (row.new.ticket ≡ row.old.ticket) × (row.new.words ≡ row.old.words)
            × (row.new.behind ≡ row.old.behind) × (row.new.pen.book ≡ row.old.pen.book) }
        ensures links { LinksSo K.eq (hash_in S.BuildHasher S.Hasher.Hasher K.hash_input)
            (place_in S.BuildHasher S.Hasher.Hasher K.hash_input) self.now segment
            front.old.log front.new.log row.old.ticket (keys_in row.old.words.items) result }
    {
        let next = self.next(segment);
        let keys = Tag::of::<Vec<Bucket<Note<K, V, S>, u64, Law>>, Keys>(&row.words);
        let behind = Tag::of::<Bucket<Note<K, V, S>, u64, Law>, Key>(&row.behind);
        let asked = Linking {
            ticket: row.ticket,
            segment,
            keys,
            behind,
        };
        match link(front, next, &mut row.pen, &asked) {
            Ok(()) => TryLink::Linked,
            Err(array) => TryLink::There(array),
        }
    }

    /// Copies this word into a bucket of the array that was linked of the row, by one exchange, where
    /// the bucket is unset. Answers whether it was. The word is the one that the array's layout has
    /// there: a call of `moka_growth` stands before its copy.
    pub fn try_copy(
        &self,
        seat: &mut Seat<K, V, S, L::Look>,
        segment: usize,
        row: &Row<K, V, S>,
        index: usize,
        to: Word,
    ) -> bool
        requires seat { seat.old.front.book ≡ self.now.book }
        requires segment { segment < self.now.segments }
        requires index { index < length row.now.words.items }
        requires small { IsSmall to }
        requires row { AreRow self.now.book row.now.ticket row.now.words.items
            seat.old.front.log }
        requires follows { Follows segment row.now.ticket (keys_in row.now.words.items)
            seat.old.front.log }
        requires wanted { WantsCopy K.eq (hash_in S.BuildHasher S.Hasher.Hasher K.hash_input)
            (place_in S.BuildHasher S.Hasher.Hasher K.hash_input) self.now.hasher
            self.now.segments segment row.now.ticket index to seat.old.front.log }
        ensures seat { seat.new.front.book ≡ self.now.book }
        ensures mine { (seat.new.mine ≡ seat.old.mine) × (seat.new.drawn ≡ seat.old.drawn) }
        ensures hidden { seat.new.hidden ≡ seat.old.hidden }
        ensures history { IsPrefix seat.old.front.log seat.new.front.log }
        ensures legal { IsLegal K.eq (entries_of seat.new.front.log) }
        ensures made { AreMade seat.old.mine.numbers (entries_of seat.old.front.log)
            → AreMade seat.new.mine.numbers (entries_of seat.new.front.log) }
        ensures copies { Copies K.eq (hash_in S.BuildHasher S.Hasher.Hasher K.hash_input)
            (place_in S.BuildHasher S.Hasher.Hasher K.hash_input) self.now segment
            seat.old.front.log seat.new.front.log row.now.ticket index to result }
    {
        seat.front.learn(&self.start);
        self.copy_at(&mut seat.front, segment, row, index, to)
    }

    /// Copies this word into a bucket of the row's array, where it is unset. Answers whether it was.
    pub(crate) fn copy_at(
        &self,
        front: &mut Seen<Note<K, V, S>, u64, Law>,
        segment: usize,
        row: &Row<K, V, S>,
        index: usize,
        to: Word,
    ) -> bool
        requires book { front.old.book ≡ self.now.book }
        requires log { IsLogOf K.eq (hash_in S.BuildHasher S.Hasher.Hasher K.hash_input)
            (place_in S.BuildHasher S.Hasher.Hasher K.hash_input) self.now front.old.log }
        requires segment { segment < self.now.segments }
        requires index { index < length row.now.words.items }
        requires small { IsSmall to }
        requires row { AreRow self.now.book row.now.ticket row.now.words.items front.old.log }
        requires follows { Follows segment row.now.ticket (keys_in row.now.words.items)
            front.old.log }
        requires wanted { WantsCopy K.eq (hash_in S.BuildHasher S.Hasher.Hasher K.hash_input)
            (place_in S.BuildHasher S.Hasher.Hasher K.hash_input) self.now.hasher
            self.now.segments segment row.now.ticket index to front.old.log }
        ensures book { front.new.book ≡ front.old.book }
        ensures goes_on { GoesOn K.eq (hash_in S.BuildHasher S.Hasher.Hasher K.hash_input)
            (place_in S.BuildHasher S.Hasher.Hasher K.hash_input) self.now
            front.old.log front.new.log }
        ensures copies { Copies K.eq (hash_in S.BuildHasher S.Hasher.Hasher K.hash_input)
            (place_in S.BuildHasher S.Hasher.Hasher K.hash_input) self.now segment
            front.old.log front.new.log row.now.ticket index to result }
    {
        let _segment = segment;
        let asked = Copying {
            array: row.ticket,
            index,
            to,
        };
        match copy(front, &row.words[index], number_of(to), &asked) {
            Ok(()) => true,
            Err(_) => false,
        }
    }
}
