//! Changes on a ticket, where a probe has ended.
ghost use Rattle.std.specs.Prelude.{◌≡◌, ℕ, ◌<◌, ◌≤◌, ◌+◌, ◌^◌, ◌∷◌, Some, None, IfOk, IfErr, OnOk, List, false};
ghost use mathlib.Core.List.{IsPrefix};
ghost use Rattle.moka_words.specs.declared.words.Word.{Word};
ghost use Rattle.moka_words.specs.declared.words.Word.TheVariants.{Live};
ghost use Rattle.moka_words.specs.Words.{is_sealed};
ghost use Rattle.moka_history.specs.Entries.{Entry};
ghost use Rattle.moka_history.specs.Logs.{entries_of, state_of};
ghost use Rattle.moka_history.specs.Rules.{made_on};
ghost use Rattle.moka_history.specs.declared.note.Note.{Note};
ghost use Rattle.moka_words.specs.Arrays.{bucket_at};
ghost use Rattle.moka_shared.specs.Accesses.{Exchanged, IsChosen, IsOther, MissesBy, PutsBy};
ghost use Rattle.moka_shared.specs.Hashing.{hash_in, place_in, segment_of};
ghost use Rattle.moka_shared.specs.Asks.{pair_of};
ghost use Rattle.moka_shared.specs.Changes.{Adds, CanChange, IsDrawnFor, IsMet, IsMetBy, IsUndrawn, PutsOn};
ghost use Rattle.moka_shared.specs.Probing.{GoesOn, IsLogOf, ReadsAt};
ghost use Rattle.moka_shared.specs.Steps.{Pens};

use crate::Fact;
use crate::answers::{Missed, Put};
use crate::asked::{Drawn, Exchange};
use crate::book::Law;
use crate::front::{draw, exchange, look};
use crate::node::Node;
use crate::seat::Seat;
use crate::table::HashMap;
use crate::tickets::with_ticket;
use crate::words::{is_sealed, number_of, word_of};
use boxcar::tag::Tag;
use logbook::{Pen, Seen};
use moka_history::Note;
use moka_shelf::Shelf;
use moka_words::Word;
use std::hash::{BuildHasher, Hash};

/// The last ticket that can be drawn.
pub(crate) const LAST: u64 = 1 << 60;

/// Where a probe under a hash ended, past so many others, and at which word.
#[derive(Clone, Copy)]
pub(crate) struct Gap {
    pub(crate) hash: u64,
    pub(crate) passed: usize,
    pub(crate) word: Word,
}

/// A ticket that was drawn, and the pen of its cell.
#[derive(Drop)]
pub(crate) struct Ticketed {
    pub(crate) ticket: u64,
    pub(crate) pen: Pen,
}

impl<K: Eq + Hash, V, S: BuildHasher, P: Fact<K, V>, L: Shelf<Node<K, V, S, P>>> HashMap<
    K,
    V,
    S,
    P,
    L,
> {
    /// How many tickets were drawn. The front becomes the log at the load.
    pub(crate) fn drawn(&self, front: &mut Seen<Note<K, V, S>, u64, Law>) -> u64
        requires book { front.old.book ≡ self.now.book }
        requires log { IsLogOf K.eq (hash_in S.BuildHasher S.Hasher.Hasher K.hash_input)
            (place_in S.BuildHasher S.Hasher.Hasher K.hash_input) self.now front.old.log }
        ensures book { front.new.book ≡ front.old.book }
        ensures goes_on { GoesOn K.eq (hash_in S.BuildHasher S.Hasher.Hasher K.hash_input)
            (place_in S.BuildHasher S.Hasher.Hasher K.hash_input) self.now
            front.old.log front.new.log }
        ensures last { self.now.segments + result ≡ (state_of front.new.log).last }
        ensures small { self.now.segments + result ≤ 2 ^ 60 }
    {
        look(front, &self.door)
    }

    /// Draws the next ticket, under which the history then names the pair; none of a removal.
    pub(crate) fn draw_for<'a>(
        &self,
        front: &mut Seen<Note<K, V, S>, u64, Law>,
        own: &mut Tag,
        pair: Option<(&'a K, &'a V)>,
    ) -> Result<Ticketed, Missed>
        requires book { front.old.book ≡ self.now.book }
        requires log { IsLogOf K.eq (hash_in S.BuildHasher S.Hasher.Hasher K.hash_input)
            (place_in S.BuildHasher S.Hasher.Hasher K.hash_input) self.now front.old.log }
        ensures book { front.new.book ≡ front.old.book }
        ensures goes_on { GoesOn K.eq (hash_in S.BuildHasher S.Hasher.Hasher K.hash_input)
            (place_in S.BuildHasher S.Hasher.Hasher K.hash_input) self.now
            front.old.log front.new.log }
        ensures drawn { IfOk result (λ d. (d.pen.book ≡ front.new.book)
            × IsDrawnFor (pair_of pair.entry) d.ticket d.pen.nib front.old.log front.new.log) }
        ensures own { IfOk result (λ d. own.new.numbers ≡ d.ticket ∷ own.old.numbers) }
        ensures missed { IfErr result (IsUndrawn front.old.log front.new.log) }
        ensures stays { IfErr result (λ missed. own.new ≡ own.old) }
    {
        let first = self.segments as u64;
        let drawn = self.drawn(front);
        if first + drawn >= LAST {
            return Err(Missed::Spent);
        }
        let ticket = first + (drawn + 1);
        let asked = Drawn { ticket, pair };
        match draw(front, own, &self.door, drawn, &asked) {
            Ok(pen) => Ok(Ticketed { ticket, pen }),
            Err(found) => Err(Missed::Ticket(first + found)),
        }
    }

    /// Sets the node of the ticket, and exchanges the word for its own.
    pub(crate) fn put_on(
        &self,
        seat: &mut Seat<K, V, S, L::Look>,
        key: K,
        value: V,
        gap: &Gap,
        drawn: Ticketed,
    ) -> Put<V>
    where
        K: Drop,
        V: Drop,
        S: Drop,
        requires book { seat.old.front.book ≡ self.now.book }
        requires pen { (drawn.pen.book ≡ seat.old.front.book)
            × Pens drawn.ticket drawn.pen.nib seat.old.front.log }
        requires log { IsLogOf K.eq (hash_in S.BuildHasher S.Hasher.Hasher K.hash_input)
            (place_in S.BuildHasher S.Hasher.Hasher K.hash_input) self.now seat.old.front.log }
        requires fact { P.holds key value }
        requires named { (state_of seat.old.front.log).pairs drawn.ticket ≡ Some (key, value) }
        requires can { (key : K) × (e : Entry K V) × (found : List (Note K V S)) × CanChange K.eq
            (hash_in S.BuildHasher S.Hasher.Hasher K.hash_input)
            (place_in S.BuildHasher S.Hasher.Hasher K.hash_input) self.now gap.now.hash
            gap.now.passed gap.now.word (Live drawn.ticket) drawn.ticket key e found
            seat.old.front.log }
        ensures book { seat.new.front.book ≡ seat.old.front.book }
        ensures hidden { seat.new.hidden ≡ seat.old.hidden }
        ensures drawn { seat.new.drawn ≡ seat.old.drawn }
        ensures goes_on { GoesOn K.eq (hash_in S.BuildHasher S.Hasher.Hasher K.hash_input)
            (place_in S.BuildHasher S.Hasher.Hasher K.hash_input) self.now
            seat.old.front.log seat.new.front.log }
        ensures exchange { PutsBy self.now gap.now.hash gap.now.passed gap.now.word
            seat.old.front.log seat.new.front.log result }
        ensures puts { (key : K) (e : Entry K V) (found : List (Note K V S)) → CanChange K.eq
            (hash_in S.BuildHasher S.Hasher.Hasher K.hash_input)
            (place_in S.BuildHasher S.Hasher.Hasher K.hash_input) self.now gap.now.hash
            gap.now.passed gap.now.word (Live drawn.ticket) drawn.ticket key e found
            seat.old.front.log
            → PutsOn self.now gap.now.hash gap.now.passed drawn.ticket e found seat.old seat.new
            result }
    {
        let ticket = drawn.ticket;
        let node = Node::new(key, value, ticket, &seat.front);
        if self.shelf.set(ticket, node).is_err() {
            return Put::Memory;
        }
        self.change_on(seat, gap, Word::Live(ticket), drawn)
    }

    /// Exchanges the word for this one, on the ticket.
    pub(crate) fn change_on(
        &self,
        seat: &mut Seat<K, V, S, L::Look>,
        gap: &Gap,
        to: Word,
        drawn: Ticketed,
    ) -> Put<V>
        requires book { seat.old.front.book ≡ self.now.book }
        requires pen { (drawn.pen.book ≡ seat.old.front.book)
            × Pens drawn.ticket drawn.pen.nib seat.old.front.log }
        requires log { IsLogOf K.eq (hash_in S.BuildHasher S.Hasher.Hasher K.hash_input)
            (place_in S.BuildHasher S.Hasher.Hasher K.hash_input) self.now seat.old.front.log }
        requires can { (key : K) × (e : Entry K V) × (found : List (Note K V S)) × CanChange K.eq
            (hash_in S.BuildHasher S.Hasher.Hasher K.hash_input)
            (place_in S.BuildHasher S.Hasher.Hasher K.hash_input) self.now gap.now.hash
            gap.now.passed gap.now.word to drawn.ticket key e found seat.old.front.log }
        requires chosen { IsChosen gap.now.word to }
        ensures book { seat.new.front.book ≡ seat.old.front.book }
        ensures hidden { seat.new.hidden ≡ seat.old.hidden }
        ensures drawn { seat.new.drawn ≡ seat.old.drawn }
        ensures goes_on { GoesOn K.eq (hash_in S.BuildHasher S.Hasher.Hasher K.hash_input)
            (place_in S.BuildHasher S.Hasher.Hasher K.hash_input) self.now
            seat.old.front.log seat.new.front.log }
        ensures exchange { PutsBy self.now gap.now.hash gap.now.passed gap.now.word
            seat.old.front.log seat.new.front.log result }
        ensures puts { (key : K) (e : Entry K V) (found : List (Note K V S)) → CanChange K.eq
            (hash_in S.BuildHasher S.Hasher.Hasher K.hash_input)
            (place_in S.BuildHasher S.Hasher.Hasher K.hash_input) self.now gap.now.hash
            gap.now.passed gap.now.word to drawn.ticket key e found seat.old.front.log
            → PutsOn self.now gap.now.hash gap.now.passed drawn.ticket e found seat.old seat.new
            result }
    {
        let Ticketed { ticket, mut pen } = drawn;
        match self.exchange_on(&mut seat.front, ticket, &mut pen, gap, to) {
            Ok(()) => {
                seat.mine = with_ticket(ticket, &seat.mine);
                Put::Done
            }
            Err(word) => Put::Missed(self.met(&seat.front, gap, word)),
        }
    }

    // Why an exchange has to be made again that met this word: the word is sealed, or another caller
    // has exchanged it.
    fn met(&self, front: &Seen<Note<K, V, S>, u64, Law>, gap: &Gap, word: Word) -> Missed
        requires log { IsLogOf K.eq (hash_in S.BuildHasher S.Hasher.Hasher K.hash_input)
            (place_in S.BuildHasher S.Hasher.Hasher K.hash_input) self.now front.now.log }
        requires reads { ReadsAt self.now gap.now.hash gap.now.passed word front.now.log }
        ensures met { (old : List (Note K V S)) (ticket : ℕ) → (is_sealed word ≡ false
            → IsMet self.now gap.now.hash gap.now.passed ticket old word front.now.log)
            → IsMetBy self.now gap.now.hash gap.now.passed ticket old front.now.log result }
        ensures misses { (old : List (Note K V S)) (from : Word) (to : Word) → IsChosen from to
            → IsOther (segment_of self.now.segments gap.now.hash)
            (bucket_at self.now.size gap.now.hash gap.now.passed) from word front.now.log
            → MissesBy self.now gap.now.hash gap.now.passed from old front.now.log result }
    {
        if is_sealed(word) {
            return self.sealed(front, gap.hash, gap.passed, word);
        }
        Missed::Lost(word)
    }

    // Exchanges the word for this one, on the ticket. Answers the word that it met instead.
    fn exchange_on(
        &self,
        front: &mut Seen<Note<K, V, S>, u64, Law>,
        ticket: u64,
        pen: &mut Pen,
        gap: &Gap,
        to: Word,
    ) -> Result<(), Word>
        requires book { front.old.book ≡ self.now.book }
        requires pen { (pen.old.book ≡ front.old.book)
            × Pens ticket pen.old.nib front.old.log }
        requires log { IsLogOf K.eq (hash_in S.BuildHasher S.Hasher.Hasher K.hash_input)
            (place_in S.BuildHasher S.Hasher.Hasher K.hash_input) self.now front.old.log }
        requires can { (key : K) × (e : Entry K V) × (found : List (Note K V S)) × CanChange K.eq
            (hash_in S.BuildHasher S.Hasher.Hasher K.hash_input)
            (place_in S.BuildHasher S.Hasher.Hasher K.hash_input) self.now gap.now.hash
            gap.now.passed gap.now.word to ticket key e found front.old.log }
        ensures book { front.new.book ≡ front.old.book }
        ensures goes_on { GoesOn K.eq (hash_in S.BuildHasher S.Hasher.Hasher K.hash_input)
            (place_in S.BuildHasher S.Hasher.Hasher K.hash_input) self.now
            front.old.log front.new.log }
        ensures done { OnOk result ((key : K) (e : Entry K V) (found : List (Note K V S))
            → CanChange K.eq (hash_in S.BuildHasher S.Hasher.Hasher K.hash_input)
            (place_in S.BuildHasher S.Hasher.Hasher K.hash_input) self.now gap.now.hash
            gap.now.passed gap.now.word to ticket key e found front.old.log
            → Adds e front.old.log front.new.log) }
        ensures met { IfErr result (λ word. is_sealed word ≡ false
            → (key : K) (e : Entry K V) (found : List (Note K V S)) → CanChange K.eq (hash_in S.BuildHasher S.Hasher.Hasher K.hash_input)
            (place_in S.BuildHasher S.Hasher.Hasher K.hash_input) self.now gap.now.hash
            gap.now.passed gap.now.word to ticket key e found front.old.log
            → IsMet self.now gap.now.hash gap.now.passed ticket found word front.new.log) }
        ensures exchanged { OnOk result (Exchanged (segment_of self.now.segments gap.now.hash)
            (bucket_at self.now.size gap.now.hash gap.now.passed) gap.now.word to
            front.old.log front.new.log) }
        ensures reads { IfErr result (λ word. ReadsAt self.now gap.now.hash gap.now.passed word
            front.new.log) }
        ensures other { IfErr result (λ word. IsOther (segment_of self.now.segments gap.now.hash)
            (bucket_at self.now.size gap.now.hash gap.now.passed) gap.now.word word
            front.new.log) }
        ensures none { IfErr result (λ word. made_on ticket (entries_of front.new.log) ≡ 0) }
    {
        let place = self.place_of(gap.hash, gap.passed);
        let bucket = self.bucket(place.segment, place.index);
        let asked = Exchange {
            ticket,
            array: place.segment as u64 + 1,
            index: place.index,
            to,
        };
        match exchange(
            front,
            bucket,
            number_of(gap.word),
            number_of(to),
            pen,
            &asked,
        ) {
            Ok(()) => Ok(()),
            Err(found) => Err(word_of(found)),
        }
    }
}
