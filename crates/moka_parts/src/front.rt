//! A beginning of a history that was seen.
ghost use Rattle.std.specs.Prelude.{◌≡◌, ◌+◌, ◌<◌, ◌^◌, [], ◌∷◌};
ghost use Rattle.moka_parts.specs.declared.note.Note.TheVariants.{Opened};
ghost use Rattle.std.specs.Bool.{OnTrue, OnFalse};
ghost use mathlib.Core.List.{IsPrefix};
ghost use Rattle.moka_parts.specs.Hashing.{part_in};
ghost use Rattle.moka_parts.specs.Logs.{Counts, IsLog, Stands, Grows};
ghost use Rattle.moka_parts.specs.Rules.{word_of};
ghost use Rattle.moka_parts.specs.Asks.{asked_change};
ghost use Rattle.moka_parts.specs.Changes.{IsLegal, IsUnspent};
ghost use Rattle.moka_parts.specs.Hands.{Makes, ticket};
ghost use Rattle.moka_parts.specs.Logs.{changes_in};
ghost use Rattle.moka_parts.specs.Pairs.{pair_at};
ghost use Rattle.logbook.specs.Pages.{may_write};

use crate::Note;
use crate::asked::{Asked, Ticketed};
use crate::book::{Add, Draw, Law, Look, Naming, Nothing};
use crate::own::Own;
use logbook::{Offer, Pen, Seen, Word};
use std::hash::{BuildHasher, Hash};
use std::marker::{Model, PhantomData};

/// A beginning of the history of the book that J names. Contracts see it as the book's log.
#[derive(Drop)]
pub(crate) struct Front<K: Eq + Hash, V, S: BuildHasher, J: Naming> {
    seen: Seen<Note<K, V, S>, u64, Law>,
    of: PhantomData<J>,
}

impl<K: Eq + Hash, V, S: BuildHasher, J: Naming> Model for Front<K, V, S, J> {
    ghost use Rattle.std.specs.Prelude.{◌≡◌, List};
    ghost use Rattle.moka_parts.specs.declared.note.Note.{Note};
    ghost use Rattle.moka_parts.specs.Logs.{IsLog};

    ghost Value = { List (Note K V S) };

    ghost view = { λ f. f.seen.log };

    ghost invariant = { λ f. (f.seen.book ≡ J.book) × IsLog K.eq f.seen.log };
}

impl<K: Eq + Hash, V, S: BuildHasher, J: Naming> Front<K, V, S, J> {
    /// What a book was opened with was seen.
    pub(crate) fn of(seen: Seen<Note<K, V, S>, u64, Law>) -> Front<K, V, S, J>
        requires book { seen.book ≡ J.book }
        requires log { (s : S) × (seen.log ≡ Opened s ∷ []) }
        ensures { result ≡ seen.log }
    {
        Front {
            seen,
            of: PhantomData,
        }
    }

    /// A copy.
    pub(crate) fn again(&self) -> Front<K, V, S, J>
        ensures { result ≡ self.now }
    {
        Front {
            seen: self.seen.again(),
            of: PhantomData,
        }
    }

    /// What was seen is a legal history.
    pub(crate) fn is_legal(&self)
        ensures { IsLegal K.eq (changes_in self.now) }
    {
        let _ = &self.seen;
    }

    /// Sees what either has seen.
    pub(crate) fn learn(&mut self, other: &Front<K, V, S, J>)
        ensures this { IsPrefix self.old self.new }
        ensures other { IsPrefix other.now self.new }
        ensures log { IsLog K.eq self.new }
    {
        self.seen.learn(&other.seen);
    }

    /// Sees what both others have seen, and the history as it is. Answers whether the part of this
    /// number is the one that is asked for, and has so many changes.
    pub(crate) fn sees(
        &mut self,
        start: &Front<K, V, S, J>,
        front: &Front<K, V, S, J>,
        word: &Word<Note<K, V, S>, u64, Law>,
        number: usize,
        asked: usize,
        count: u64,
    ) -> bool
        requires word { (word.now ≡ word_of J.book number) × (number < 64) }
        ensures grows { IsPrefix self.old self.new }
        ensures start { IsPrefix start.now self.new }
        ensures front { IsPrefix front.now self.new }
        ensures counts { OnTrue result ((number ≡ asked) × ((s : S) × Counts K.eq
            (part_in S.BuildHasher S.Hasher.Hasher K.hash_input) s asked count self.new)) }
    {
        self.learn(start);
        self.learn(front);
        if number != asked {
            return false;
        }
        let mut offer: Offer<Note<K, V, S>, u64, Law, Nothing> = self
            .seen
            .plain::<Nothing, (), Look>(&());
        word.load::<Look, Nothing>(&mut self.seen, &mut offer) == count
    }

    /// Draws a ticket that nobody has spent, by a step on this word of the book, and sees the
    /// history as it is.
    pub(crate) fn draw(
        &mut self,
        word: &Word<Note<K, V, S>, u64, Law>,
        number: usize,
    ) -> (Word<Note<K, V, S>, u64, Law>, Pen)
        requires word { (word.now ≡ word_of J.book number) × (number < 65) }
        ensures grows { IsPrefix self.old self.new }
        ensures named { result.0.key ≡ result.1.nib.key }
        ensures ticket { (result.1.book ≡ J.book) × (result.1.nib.right ≡ may_write) }
        ensures unspent { IsUnspent result.1.nib.key (changes_in self.new) }
    {
        let mut offer: Offer<Note<K, V, S>, u64, Law, Nothing> = self
            .seen
            .plain::<Nothing, (), Look>(&());
        let mut pen = self.seen.no_pen();
        let _ = word.compare_exchange::<Draw, Nothing>(0, 0, &mut self.seen, &mut offer, &mut pen);
        (Word::tracked(0, &mut pen), pen)
    }

    /// Adds the change to a history that begins with what was seen, as one of the caller's own, whose
    /// ticket it spends. Answers false where the part has another count of changes, or can't count
    /// one more; then nothing is added.
    pub(crate) fn add(
        &mut self,
        word: &Word<Note<K, V, S>, u64, Law>,
        number: usize,
        count: u64,
        asked: &Asked<'_, K, V, S>,
        own: &mut Own<K, V, S, J>,
    ) -> bool
        requires word { (word.now ≡ word_of J.book number) × (number < 64) }
        requires stands { (s : S) × Stands K.eq
            (part_in S.BuildHasher S.Hasher.Hasher K.hash_input) s number count asked.now.key.now
            (pair_at K.eq asked.now.map.now asked.now.key.now) self.old }
        ensures grows { IsPrefix self.old self.new }
        ensures room { OnTrue result (count + 1 < 2 ^ 64) }
        ensures added { OnTrue result (Grows K.eq
            (part_in S.BuildHasher S.Hasher.Hasher K.hash_input) number (count + 1)
            (asked_change K.eq (ticket own.old) (ticket own.new) asked.now) self.old self.new) }
        ensures made { OnTrue result (Makes
            (asked_change K.eq (ticket own.old) (ticket own.new) asked.now)
            own.old own.new (changes_in self.new)) }
        ensures rests { OnFalse result (own.new ≡ own.old) }
    {
        self.learn(&own.last);
        if count == u64::MAX {
            return false;
        }
        let (_, next) = self.draw(word, number);
        let mut offer: Offer<Note<K, V, S>, u64, Law, Nothing> = self
            .seen
            .plain::<Nothing, Ticketed<'_, '_, K, V, S>, Add>(&Ticketed {
                asked,
                ticket: &own.ticket,
                next: &next,
            });
        let found = word.compare_exchange::<Add, Nothing>(
            count,
            count + 1,
            &mut self.seen,
            &mut offer,
            &mut own.ticket,
        );
        if found != count {
            return false;
        }
        own.ticket = next;
        own.last = self.again();
        true
    }
}
