//! First steps of a table that grows: a row is made for a new array, and words are sealed. The calls on
//! keys stay in the first array of each segment.
ghost use Rattle.std.specs.Prelude.{◌≡◌, [], ◌∷◌, ◌+◌, ◌<◌, ◌≤◌, false, true, length, suc, vec_capacity, IfErr, IfOk, IsSome, OnOk};
ghost use mathlib.Core.List.{IsPrefix};
ghost use Rattle.moka_history.specs.Entries.{IsLegal};
ghost use Rattle.moka_history.specs.Keeping.{IsSmall};
ghost use Rattle.moka_history.specs.Logs.{entries_of, state_of};
ghost use Rattle.moka_history.specs.States.{Plan, words_in};
ghost use Rattle.moka_growth.specs.Growing.{seal_of};
ghost use Rattle.moka_words.specs.Words.{is_sealed, word_at};
ghost use Rattle.moka_shared.specs.Changes.{AreMade, IsUndrawn};
ghost use Rattle.moka_shared.specs.Hashing.{hash_in, place_in};
ghost use Rattle.moka_shared.specs.Looks.{IsSealedIn};
ghost use Rattle.moka_shared.specs.Probing.{GoesOn, IsLogOf, Loads};
ghost use Rattle.moka_shared.specs.declared.answers.Missed.TheVariants.{Lost};
ghost use Rattle.moka_shared.specs.declared.answers.TrySeal.TheVariants.{Again, Sealed};
ghost use Rattle.moka_shared.specs.Rows.{AreRow, HoldsTicket, IsAnnounced, IsBehind, IsNotOpened, IsMetThere, IsOfRow, SealsSo, plan_for};

use crate::Fact;
use crate::answers::{Missed, TrySeal, Unopened};
use crate::asked::{Planned, Seal};
use crate::book::Law;
use crate::node::Node;
use crate::put::{LAST, Ticketed};
use crate::row::Row;
use crate::rows::{announce, make_word};
use crate::seals::seal;
use crate::seat::Seat;
use crate::segments::first_array;
use crate::table::HashMap;
use crate::words::{is_sealed, number_of, seal_of, word_of};
use boxcar::tag::Tag;
use logbook::{Seen, Word as Bucket};
use moka_history::Note;
use moka_shelf::Shelf;
use moka_words::Word;
use std::alloc::Global;
use std::hash::{BuildHasher, Hash};

impl<K: Eq + Hash, V, S: BuildHasher, P: Fact<K, V>, L: Shelf<Node<K, V, S, P>>> HashMap<
    K,
    V,
    S,
    P,
    L,
> {
    /// Announces an array of so many words on the next ticket, which is to follow the segment's
    /// array, and makes its words, and one behind them, which is to name the array after it. Answers
    /// these as a row, with the ticket: they are unset, and part of no array. `Memory` comes where there
    /// is none for the words, which is taken first; `Again` where another caller draws the ticket
    /// meanwhile (`Missed::Ticket`), or where none is left (`Missed::Spent`). Then this caller has drawn
    /// no ticket.
    pub fn try_open_row(
        &self,
        alloc: Global,
        seat: &mut Seat<K, V, S, L::Look>,
        segment: usize,
        size: usize,
    ) -> Result<Row<K, V, S>, Unopened>
        requires seat { seat.old.front.book ≡ self.now.book }
        requires segment { segment < self.now.segments }
        ensures seat { seat.new.front.book ≡ self.now.book }
        ensures mine { seat.new.mine ≡ seat.old.mine }
        ensures hidden { seat.new.hidden ≡ seat.old.hidden }
        ensures history { IsPrefix seat.old.front.log seat.new.front.log }
        ensures legal { IsLegal K.eq (entries_of seat.new.front.log) }
        ensures made { AreMade seat.old.mine.numbers (entries_of seat.old.front.log)
            → AreMade seat.new.mine.numbers (entries_of seat.new.front.log) }
        ensures drawn { IfOk result (λ row. seat.new.drawn.numbers
            ≡ row.ticket ∷ seat.old.drawn.numbers) }
        ensures late { IfOk result (λ row. (state_of seat.old.front.log).last < row.ticket) }
        ensures announced { IfOk result (λ row. HoldsTicket row.ticket
            (plan_for segment size) row.pen.nib seat.new.front.log) }
        ensures row { IfOk result (λ row. AreRow self.now.book row.ticket row.words.items
            seat.new.front.log) }
        ensures count { IfOk result (λ row. length row.words.items ≡ size) }
        ensures behind { IfOk result (λ row. IsBehind self.now.book row.ticket row.words.items
            row.behind seat.new.front.log) }
        ensures pen { IfOk result (λ row. row.pen.book ≡ self.now.book) }
        ensures none { IfErr result (λ why. seat.new.drawn ≡ seat.old.drawn) }
        ensures again { IfErr result (IsNotOpened seat.old.front.log seat.new.front.log) }
    {
        seat.front.learn(&self.start);
        let Ok(words) = Vec::with_capacity(alloc, size) else {
            return Err(Unopened::Memory);
        };
        match self.announce_for(&mut seat.front, &mut seat.drawn, segment, size) {
            Ok(drawn) => Ok(self.opened_row(&mut seat.front, drawn, words, size)),
            Err(missed) => Err(Unopened::Again(missed)),
        }
    }

    // Draws the next ticket for an array of so many words, which is to follow that of the segment.
    fn announce_for(
        &self,
        front: &mut Seen<Note<K, V, S>, u64, Law>,
        own: &mut Tag,
        segment: usize,
        size: usize,
    ) -> Result<Ticketed, Missed>
        requires book { front.old.book ≡ self.now.book }
        requires log { IsLogOf K.eq (hash_in S.BuildHasher S.Hasher.Hasher K.hash_input)
            (place_in S.BuildHasher S.Hasher.Hasher K.hash_input) self.now front.old.log }
        requires segment { segment < self.now.segments }
        ensures book { front.new.book ≡ front.old.book }
        ensures goes_on { GoesOn K.eq (hash_in S.BuildHasher S.Hasher.Hasher K.hash_input)
            (place_in S.BuildHasher S.Hasher.Hasher K.hash_input) self.now
            front.old.log front.new.log }
        ensures late { IfOk result (λ d. (state_of front.old.log).last < d.ticket) }
        ensures pen { IfOk result (λ d. d.pen.book ≡ front.new.book) }
        ensures announced { IfOk result (λ d. IsAnnounced d.ticket (plan_for segment size)
            d.pen.nib front.new.log) }
        ensures own { IfOk result (λ d. own.new.numbers ≡ d.ticket ∷ own.old.numbers) }
        ensures missed { IfErr result (IsUndrawn front.old.log front.new.log) }
        ensures stays { IfErr result (λ missed. own.new ≡ own.old) }
    {
        let first = self.segments as u64;
        let drawn = self.drawn(front);
        if first + drawn >= LAST {
            return Err(Missed::Spent);
        }
        let ticket = first + (drawn + 1);
        let asked = Planned {
            ticket,
            segment,
            length: size,
            grown: Some(segment as u64 + 1),
        };
        match announce(front, own, &self.door, drawn, &asked) {
            Ok(pen) => Ok(Ticketed { ticket, pen }),
            Err(found) => Err(Missed::Ticket(first + found)),
        }
    }

    // Makes the words of the array that is announced on the ticket.
    fn opened_row(
        &self,
        front: &mut Seen<Note<K, V, S>, u64, Law>,
        drawn: Ticketed,
        words: Vec<Bucket<Note<K, V, S>, u64, Law>>,
        size: usize,
    ) -> Row<K, V, S>
        requires book { front.old.book ≡ self.now.book }
        requires log { IsLogOf K.eq (hash_in S.BuildHasher S.Hasher.Hasher K.hash_input)
            (place_in S.BuildHasher S.Hasher.Hasher K.hash_input) self.now front.old.log }
        requires planned { (plan : Plan) × IsAnnounced drawn.ticket plan drawn.pen.nib
            front.old.log }
        requires none { words.items ≡ [] }
        requires room { size ≤ vec_capacity words }
        ensures book { front.new.book ≡ front.old.book }
        ensures goes_on { GoesOn K.eq (hash_in S.BuildHasher S.Hasher.Hasher K.hash_input)
            (place_in S.BuildHasher S.Hasher.Hasher K.hash_input) self.now
            front.old.log front.new.log }
        ensures ticket { result.ticket ≡ drawn.ticket }
        ensures pen { result.pen.book ≡ drawn.pen.book }
        ensures holds { (plan : Plan) → IsAnnounced drawn.ticket plan drawn.pen.nib
            front.old.log → HoldsTicket drawn.ticket plan result.pen.nib front.new.log }
        ensures row { AreRow self.now.book drawn.ticket result.words.items front.new.log }
        ensures behind { IsBehind self.now.book drawn.ticket result.words.items result.behind
            front.new.log }
        ensures count { length result.words.items ≡ size }
    {
        let Ticketed { ticket, pen } = drawn;
        let behind = make_word(front, &self.door, ticket);
        let words = self.filled(front, ticket, &behind, words, size);
        Row {
            ticket,
            words,
            behind,
            pen,
        }
    }

    // Makes so many words for the ticket's array, by the one behind them.
    fn filled(
        &self,
        front: &mut Seen<Note<K, V, S>, u64, Law>,
        ticket: u64,
        behind: &Bucket<Note<K, V, S>, u64, Law>,
        mut words: Vec<Bucket<Note<K, V, S>, u64, Law>>,
        size: usize,
    ) -> Vec<Bucket<Note<K, V, S>, u64, Law>>
        requires book { front.old.book ≡ self.now.book }
        requires log { IsLogOf K.eq (hash_in S.BuildHasher S.Hasher.Hasher K.hash_input)
            (place_in S.BuildHasher S.Hasher.Hasher K.hash_input) self.now front.old.log }
        requires planned { IsSome ((state_of front.old.log).plans ticket) }
        requires behind { IsOfRow self.now.book ticket behind.now front.old.log }
        requires none { words.items ≡ [] }
        requires room { size ≤ vec_capacity words }
        ensures book { front.new.book ≡ front.old.book }
        ensures goes_on { GoesOn K.eq (hash_in S.BuildHasher S.Hasher.Hasher K.hash_input)
            (place_in S.BuildHasher S.Hasher.Hasher K.hash_input) self.now
            front.old.log front.new.log }
        ensures row { AreRow self.now.book ticket result.items front.new.log }
        ensures behind { IsBehind self.now.book ticket result.items behind.now front.new.log }
        ensures count { length result.items ≡ size }
    {
        let mut made = 0;
        while made < size {
            let word = make_word(front, behind, ticket);
            words.push_reserved(word);
            made += 1;
        }
        words
    }

    /// Seals the word of this bucket of the segment's array, by one pass. Words may be sealed in
    /// any order. `Sealed` has the word that stands there for good, sealed by this caller or by
    /// another one; `Again` comes where another caller exchanges the word meanwhile
    /// (`Missed::Lost`). A sealed word takes no pair any more: a call that comes to it answers
    /// `Missed::Sealed`.
    pub fn try_seal(
        &self,
        seat: &mut Seat<K, V, S, L::Look>,
        segment: usize,
        index: usize,
    ) -> TrySeal
        requires seat { seat.old.front.book ≡ self.now.book }
        requires segment { segment < self.now.segments }
        requires index { index < self.now.size }
        ensures seat { seat.new.front.book ≡ self.now.book }
        ensures mine { (seat.new.mine ≡ seat.old.mine) × (seat.new.drawn ≡ seat.old.drawn) }
        ensures hidden { seat.new.hidden ≡ seat.old.hidden }
        ensures history { IsPrefix seat.old.front.log seat.new.front.log }
        ensures legal { IsLegal K.eq (entries_of seat.new.front.log) }
        ensures made { AreMade seat.old.mine.numbers (entries_of seat.old.front.log)
            → AreMade seat.new.mine.numbers (entries_of seat.new.front.log) }
        ensures seals { SealsSo (suc segment) index seat.old.front.log seat.new.front.log result }
    {
        seat.front.learn(&self.start);
        let word = self.load(&mut seat.front, segment, index);
        if is_sealed(word) {
            return TrySeal::Sealed(word);
        }
        match self.seal_at(&mut seat.front, segment, index, word) {
            Ok(()) => TrySeal::Sealed(seal_of(word)),
            Err(met) => unsealed(met),
        }
    }

    // Exchanges the word of the bucket, which was loaded, for its seal. Answers the word that it met
    // instead.
    fn seal_at(
        &self,
        front: &mut Seen<Note<K, V, S>, u64, Law>,
        segment: usize,
        index: usize,
        word: Word,
    ) -> Result<(), Word>
        requires book { front.old.book ≡ self.now.book }
        requires log { IsLogOf K.eq (hash_in S.BuildHasher S.Hasher.Hasher K.hash_input)
            (place_in S.BuildHasher S.Hasher.Hasher K.hash_input) self.now front.old.log }
        requires segment { segment < self.now.segments }
        requires index { index < self.now.size }
        requires word { (word_at (words_in (state_of front.old.log) (suc segment)) index ≡ word)
            × IsSmall word × (is_sealed word ≡ false) }
        ensures book { front.new.book ≡ front.old.book }
        ensures goes_on { GoesOn K.eq (hash_in S.BuildHasher S.Hasher.Hasher K.hash_input)
            (place_in S.BuildHasher S.Hasher.Hasher K.hash_input) self.now
            front.old.log front.new.log }
        ensures seals { OnOk result (IsSealedIn (seal_of word) (suc segment) index
            front.new.log) }
        ensures meets { IfErr result (λ met. (is_sealed met ≡ true
            → IsSealedIn met (suc segment) index front.new.log)
            × (is_sealed met ≡ false
            → IsMetThere (suc segment) index front.old.log met front.new.log)) }
    {
        let bucket = self.bucket(segment, index);
        let to = seal_of(word);
        let asked = Seal {
            array: first_array(self.segments, segment),
            index,
            to,
        };
        match seal(front, bucket, number_of(word), number_of(to), &asked) {
            Ok(()) => Ok(()),
            Err(found) => Err(word_of(found)),
        }
    }
}

// What a pass answers that was to seal a word, and met this one.
fn unsealed(met: Word) -> TrySeal
    ensures sealed { is_sealed met ≡ true → result ≡ Sealed met }
    ensures lost { is_sealed met ≡ false → result ≡ Again (Lost met) }
{
    if is_sealed(met) {
        return TrySeal::Sealed(met);
    }
    TrySeal::Again(Missed::Lost(met))
}
