//! Steps by which a front of the history moves on.
ghost use Rattle.std.specs.Prelude.{◌≡◌, ◌≢◌, false, ◌+◌, ◌<◌, ◌≤◌, ◌^◌, ◌∷◌, Bool, Some, length, true, IfErr, IfOk, OnOk};
ghost use Rattle.std.specs.List.{slice_get};
ghost use Rattle.logbook.specs.Pages.{may_write, nib};
ghost use Rattle.moka_history.specs.Logs.{state_of};
ghost use Rattle.moka_history.specs.Moving.{IsPlace};
ghost use Rattle.moka_history.specs.States.{Ticket};
ghost use Rattle.moka_shared.specs.Asks.{drawn_note, exchange_note};
ghost use Rattle.moka_shared.specs.Hashing.{hash_in, place_in};
ghost use Rattle.moka_shared.specs.Steps.{MayExchange, Pens, Sees, Spends, Writes};

use crate::asked::{Drawn, Exchange};
use crate::book::{Change, Draw, Law, Look, Nothing};
use crate::tickets::with_ticket;
use boxcar::tag::Tag;
use logbook::{Offer, Pen, Seen, Word};
use moka_history::Note;
use std::hash::{BuildHasher, Hash};

/// Reads a word of the book. The front becomes the log at the load.
pub(crate) fn look<K: Eq + Hash, V, S: BuildHasher>(
    front: &mut Seen<Note<K, V, S>, u64, Law>,
    word: &Word<Note<K, V, S>, u64, Law>,
) -> u64
    requires book { (word.now.tracked ≡ true) × (word.now.book ≡ front.old.book) }
    requires some { 0 < length front.old.log }
    requires place { IsPlace word.now.key front.old.log }
    ensures book { front.new.book ≡ front.old.book }
    ensures sees { Sees K.eq (hash_in S.BuildHasher S.Hasher.Hasher K.hash_input)
        (place_in S.BuildHasher S.Hasher.Hasher K.hash_input) word.now.key result
        front.old.log front.new.log }
{
    let mut offer: Offer<Note<K, V, S>, u64, Law, Nothing> = front.plain::<Nothing, (), Look>(&());
    word.load::<Look, Nothing>(front, &mut offer)
}

/// Draws the next ticket, where the door's word still is `drawn`, and names its pair. Answers the
/// pen of the ticket's cell, or else what the door's word is by now. Each ticket that a caller has is
/// drawn here, and is added to its own.
pub(crate) fn draw<K: Eq + Hash, V, S: BuildHasher>(
    front: &mut Seen<Note<K, V, S>, u64, Law>,
    own: &mut Tag,
    door: &Word<Note<K, V, S>, u64, Law>,
    drawn: u64,
    asked: &Drawn<'_, K, V>,
) -> Result<Pen, u64>
    requires book { (door.now.tracked ≡ true) × (door.now.book ≡ front.old.book) }
    requires door { door.now.key ≡ 0 }
    requires some { 0 < length front.old.log }
    requires next { asked.now.ticket ≡ (state_of front.old.log).segments + (drawn + 1) }
    requires small { asked.now.ticket ≤ 2 ^ 60 }
    ensures book { front.new.book ≡ front.old.book }
    ensures names { IfOk result (λ pen. (pen.book ≡ front.new.book)
        × Pens asked.now.ticket pen.nib front.new.log) }
    ensures own { IfOk result (λ pen. own.new.numbers ≡ asked.now.ticket ∷ own.old.numbers) }
    ensures stays { IfErr result (λ found. own.new ≡ own.old) }
    ensures writes { OnOk result (Writes K.eq
        (hash_in S.BuildHasher S.Hasher.Hasher K.hash_input)
        (place_in S.BuildHasher S.Hasher.Hasher K.hash_input) 0 drawn
        (drawn_note asked.now) front.old.log front.new.log) }
    ensures sees { IfErr result (λ found. Sees K.eq
        (hash_in S.BuildHasher S.Hasher.Hasher K.hash_input)
        (place_in S.BuildHasher S.Hasher.Hasher K.hash_input) 0 found
        front.old.log front.new.log) }
    ensures other { IfErr result (λ found. found ≢ drawn) }
{
    let mut offer: Offer<Note<K, V, S>, u64, Law, Nothing> = front.plain::<
        Nothing,
        Drawn<'_, K, V>,
        Draw,
    >(asked);
    let mut pen = front.no_pen();
    let found = door.compare_exchange::<Draw, Nothing>(
        drawn,
        drawn + 1,
        front,
        &mut offer,
        &mut pen,
    );
    if found != drawn {
        return Err(found);
    }
    let _cell: Word<Note<K, V, S>, u64, Law> = Word::tracked(0, &mut pen);
    *own = with_ticket(asked.ticket, own);
    Ok(pen)
}

/// Exchanges a bucket whose word still is the number `from`, on the ticket of the pen. Answers what
/// the word was; where it was another one, nothing has changed.
pub(crate) fn exchange<K: Eq + Hash, V, S: BuildHasher>(
    front: &mut Seen<Note<K, V, S>, u64, Law>,
    bucket: &Word<Note<K, V, S>, u64, Law>,
    from: u64,
    to: u64,
    pen: &mut Pen,
    asked: &Exchange,
) -> Result<(), u64>
    requires book { (bucket.now.tracked ≡ true) × (bucket.now.book ≡ front.old.book)
        × (pen.old.book ≡ front.old.book) }
    requires pen { (home : Bool) × (pen.old.nib ≡ nib may_write pen.old.nib.key 0)
        × (slice_get (state_of front.old.log).cells pen.old.nib.key
        ≡ Some (Ticket asked.now.ticket home)) }
    requires may { MayExchange K.eq (hash_in S.BuildHasher S.Hasher.Hasher K.hash_input)
        (place_in S.BuildHasher S.Hasher.Hasher K.hash_input) bucket.now.key from to asked.now
        front.old.log }
    ensures book { (front.new.book ≡ front.old.book) × (pen.new.book ≡ pen.old.book) }
    ensures spends { OnOk result (Spends K.eq
        (hash_in S.BuildHasher S.Hasher.Hasher K.hash_input)
        (place_in S.BuildHasher S.Hasher.Hasher K.hash_input) bucket.now.key from
        (exchange_note asked.now) front.old.log front.new.log) }
    ensures sees { IfErr result (λ found. Sees K.eq
        (hash_in S.BuildHasher S.Hasher.Hasher K.hash_input)
        (place_in S.BuildHasher S.Hasher.Hasher K.hash_input) bucket.now.key found
        front.old.log front.new.log) }
    ensures other { IfErr result (λ found. found ≢ from) }
    ensures away { IfErr result (λ found. slice_get (state_of front.new.log).cells
        pen.old.nib.key ≡ Some (Ticket asked.now.ticket false)) }
{
    let mut offer: Offer<Note<K, V, S>, u64, Law, Nothing> = front.plain::<
        Nothing,
        Exchange,
        Change,
    >(asked);
    let found = bucket.compare_exchange::<Change, Nothing>(from, to, front, &mut offer, pen);
    if found != from {
        return Err(found);
    }
    Ok(())
}
