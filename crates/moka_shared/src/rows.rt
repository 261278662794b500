//! Steps by which an array is announced, and words are made for it while all calls run.
ghost use Rattle.std.specs.Prelude.{◌≡◌, ◌≢◌, ℕ, ◌+◌, ◌<◌, ◌≤◌, ◌^◌, ◌∷◌, Bool, Some, length, true, IfErr, IfOk, OnOk, IsSome};
ghost use Rattle.std.specs.List.{slice_get};
ghost use mathlib.Core.List.{IsPrefix};
ghost use Rattle.moka_history.specs.Logs.{state_of};
ghost use Rattle.moka_history.specs.Moving.{IsHome};
ghost use Rattle.moka_history.specs.Rules.{IsKept, IsRowStill};
ghost use Rattle.moka_history.specs.States.{Row};
ghost use Rattle.moka_history.specs.declared.note.Note.TheVariants.{CellHome};
ghost use Rattle.moka_shared.specs.Asks.{added_note, planned_note};
ghost use Rattle.moka_shared.specs.Hashing.{hash_in, place_in};
ghost use Rattle.moka_shared.specs.Rows.{IsAdded, IsAnnounced, IsOfRow, Leaves, MakesWord, plan_of};
ghost use Rattle.moka_shared.specs.Steps.{Sees};
ghost use Rattle.moka_shared.specs.Tables.{word_named};

use crate::asked::{Brought, Planned};
use crate::book::{AddCell, Announce, BringHome, Law, Nothing};
use crate::tickets::with_ticket;
use boxcar::tag::Tag;
use logbook::{Offer, Pen, Seen, Word};
use moka_history::Note;
use std::hash::{BuildHasher, Hash};

/// Draws the next ticket for an array, where the door's word still is `drawn`. Answers the pen of the
/// ticket's cell, or else what the door's word is by now.
pub(crate) fn announce<K: Eq + Hash, V, S: BuildHasher>(
    front: &mut Seen<Note<K, V, S>, u64, Law>,
    own: &mut Tag,
    door: &Word<Note<K, V, S>, u64, Law>,
    drawn: u64,
    asked: &Planned,
) -> Result<Pen, u64>
    requires book { (door.now.tracked ≡ true) × (door.now.book ≡ front.old.book) }
    requires door { door.now.key ≡ 0 }
    requires some { 0 < length front.old.log }
    requires next { asked.now.ticket ≡ (state_of front.old.log).segments + (drawn + 1) }
    requires small { asked.now.ticket ≤ 2 ^ 60 }
    requires grown { (g : ℕ) → asked.now.grown ≡ Some g → g ≤ (state_of front.old.log).last }
    ensures book { front.new.book ≡ front.old.book }
    ensures names { IfOk result (λ pen. (pen.book ≡ front.new.book)
        × IsAnnounced asked.now.ticket (plan_of asked.now) pen.nib front.new.log) }
    ensures own { IfOk result (λ pen. own.new.numbers ≡ asked.now.ticket ∷ own.old.numbers) }
    ensures stays { IfErr result (λ found. own.new ≡ own.old) }
    ensures leaves { OnOk result (Leaves K.eq
        (hash_in S.BuildHasher S.Hasher.Hasher K.hash_input)
        (place_in S.BuildHasher S.Hasher.Hasher K.hash_input) 0 drawn
        (planned_note asked.now) front.old.log front.new.log) }
    ensures sees { IfErr result (λ found. Sees K.eq
        (hash_in S.BuildHasher S.Hasher.Hasher K.hash_input)
        (place_in S.BuildHasher S.Hasher.Hasher K.hash_input) 0 found
        front.old.log front.new.log) }
    ensures other { IfErr result (λ found. found ≢ drawn) }
{
    let mut offer: Offer<Note<K, V, S>, u64, Law, Nothing> = front.plain::<
        Nothing,
        Planned,
        Announce,
    >(asked);
    let mut pen = front.no_pen();
    let found = door.compare_exchange::<Announce, Nothing>(
        drawn,
        drawn + 1,
        front,
        &mut offer,
        &mut pen,
    );
    if found != drawn {
        return Err(found);
    }
    let _cell: Word<Note<K, V, S>, u64, Law> = Word::tracked(0, &mut pen);
    *own = with_ticket(asked.ticket, own);
    Ok(pen)
}

// Adds a cell for the ticket's array, by an exchange of a word that is home, and makes the cell's word,
// which is unset. The exchange leaves the number that it meets, whichever it is.
fn add_cell<K: Eq + Hash, V, S: BuildHasher>(
    front: &mut Seen<Note<K, V, S>, u64, Law>,
    at: &Word<Note<K, V, S>, u64, Law>,
    ticket: u64,
) -> (Word<Note<K, V, S>, u64, Law>, Pen)
    requires book { (at.now.tracked ≡ true) × (at.now.book ≡ front.old.book) }
    requires some { 0 < length front.old.log }
    requires home { IsHome at.now.key front.old.log }
    requires planned { IsSome ((state_of front.old.log).plans ticket) }
    ensures book { front.new.book ≡ front.old.book }
    ensures word { result.0 ≡ word_named front.new.book result.1.nib.key }
    ensures pen { result.1.book ≡ front.new.book }
    ensures added { IsAdded ticket result.1.nib front.new.log }
    ensures leaves { (found : ℕ) × Leaves K.eq
        (hash_in S.BuildHasher S.Hasher.Hasher K.hash_input)
        (place_in S.BuildHasher S.Hasher.Hasher K.hash_input) at.now.key found
        (added_note ticket) front.old.log front.new.log }
{
    let mut offer: Offer<Note<K, V, S>, u64, Law, Nothing> = front.plain::<Nothing, u64, AddCell>(
        &ticket,
    );
    let mut pen = front.no_pen();
    let _left = at.compare_exchange::<AddCell, Nothing>(0, 0, front, &mut offer, &mut pen);
    let word = Word::tracked(1, &mut pen);
    (word, pen)
}

// Brings the cell that the pen writes home, by an exchange of a word that is home and leaves it.
fn bring_home<K: Eq + Hash, V, S: BuildHasher>(
    front: &mut Seen<Note<K, V, S>, u64, Law>,
    at: &Word<Note<K, V, S>, u64, Law>,
    ticket: u64,
    mut pen: Pen,
)
    requires book { (at.now.tracked ≡ true) × (at.now.book ≡ front.old.book)
        × (pen.book ≡ front.old.book) }
    requires some { 0 < length front.old.log }
    requires home { IsHome at.now.key front.old.log }
    requires pen { IsAdded ticket pen.nib front.old.log }
    ensures book { front.new.book ≡ front.old.book }
    ensures home { slice_get (state_of front.new.log).cells pen.nib.key
        ≡ Some (Row ticket true) }
    ensures leaves { (found : ℕ) × Leaves K.eq
        (hash_in S.BuildHasher S.Hasher.Hasher K.hash_input)
        (place_in S.BuildHasher S.Hasher.Hasher K.hash_input) at.now.key found
        (CellHome ticket pen.nib.key) front.old.log front.new.log }
{
    let mut offer: Offer<Note<K, V, S>, u64, Law, Nothing> = front.plain::<
        Nothing,
        Brought<'_>,
        BringHome,
    >(&Brought { ticket, pen: &pen });
    let _left = at.compare_exchange::<BringHome, Nothing>(0, 0, front, &mut offer, &mut pen);
}

/// Makes a word for the ticket's array, unset, by two exchanges of a word that is home and keeps its
/// number. No array has it yet, and none of those that were made before is the same word.
pub(crate) fn make_word<K: Eq + Hash, V, S: BuildHasher>(
    front: &mut Seen<Note<K, V, S>, u64, Law>,
    at: &Word<Note<K, V, S>, u64, Law>,
    ticket: u64,
) -> Word<Note<K, V, S>, u64, Law>
    requires book { (at.now.tracked ≡ true) × (at.now.book ≡ front.old.book) }
    requires some { 0 < length front.old.log }
    requires home { IsHome at.now.key front.old.log }
    requires planned { IsSome ((state_of front.old.log).plans ticket) }
    ensures book { front.new.book ≡ front.old.book }
    ensures begins { IsPrefix front.old.log front.new.log }
    ensures kept { IsKept K.eq (hash_in S.BuildHasher S.Hasher.Hasher K.hash_input)
        (place_in S.BuildHasher S.Hasher.Hasher K.hash_input) front.new.log }
    ensures word { IsOfRow front.new.book ticket result front.new.log }
    ensures other { (k n : ℕ) → IsRowStill (state_of front.old.log) k n true → k ≢ result.key }
    ensures makes { MakesWord K.eq (hash_in S.BuildHasher S.Hasher.Hasher K.hash_input)
        (place_in S.BuildHasher S.Hasher.Hasher K.hash_input) at.now.key ticket result.key
        front.old.log front.new.log }
{
    let (word, pen) = add_cell(front, at, ticket);
    bring_home(front, at, ticket, pen);
    word
}
