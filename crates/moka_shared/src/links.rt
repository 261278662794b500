//! Steps by which an array is linked, and a word copied into it.
ghost use Rattle.std.specs.Prelude.{◌≡◌, ◌≢◌, true, IfErr, OnOk};
ghost use Rattle.logbook.specs.Pages.{may_write, nib};
ghost use Rattle.moka_shared.specs.Asks.{copy_note, link_note};
ghost use Rattle.moka_shared.specs.Hashing.{hash_in, place_in};
ghost use Rattle.moka_shared.specs.Links.{JoinsRow, MayCopy, MayJoin};
ghost use Rattle.moka_shared.specs.Rows.{Leaves};
ghost use Rattle.moka_shared.specs.Steps.{Sees};

use crate::asked::{Copying, Linking};
use crate::book::{CopyWord, Law, LinkArray, Nothing};
use logbook::{Offer, Pen, Seen, Word};
use moka_history::Note;
use std::hash::{BuildHasher, Hash};

/// Exchanges the word for the array after a segment's first one, which still is 0, for the number of
/// the array whose ticket's cell the pen writes. Answers what the word was where another array was
/// linked; then nothing has changed.
pub(crate) fn link<K: Eq + Hash, V, S: BuildHasher>(
    front: &mut Seen<Note<K, V, S>, u64, Law>,
    next: &Word<Note<K, V, S>, u64, Law>,
    pen: &mut Pen,
    asked: &Linking,
) -> Result<(), u64>
    requires book { (next.now.tracked ≡ true) × (next.now.book ≡ front.old.book)
        × (pen.old.book ≡ front.old.book) }
    requires pen { pen.old.nib ≡ nib may_write pen.old.nib.key 0 }
    requires may { MayJoin K.eq (hash_in S.BuildHasher S.Hasher.Hasher K.hash_input)
        (place_in S.BuildHasher S.Hasher.Hasher K.hash_input) next.now.key pen.old.nib.key
        asked.now front.old.log }
    ensures book { (front.new.book ≡ front.old.book) × (pen.new.book ≡ pen.old.book) }
    ensures joins { OnOk result (JoinsRow K.eq
        (hash_in S.BuildHasher S.Hasher.Hasher K.hash_input)
        (place_in S.BuildHasher S.Hasher.Hasher K.hash_input) next.now.key pen.old.nib.key
        (link_note asked.now) front.old.log front.new.log) }
    ensures sees { IfErr result (λ found. Sees K.eq
        (hash_in S.BuildHasher S.Hasher.Hasher K.hash_input)
        (place_in S.BuildHasher S.Hasher.Hasher K.hash_input) next.now.key found
        front.old.log front.new.log) }
    ensures other { IfErr result (λ found. found ≢ 0) }
{
    let mut offer: Offer<Note<K, V, S>, u64, Law, Nothing> = front.plain::<
        Nothing,
        Linking,
        LinkArray,
    >(asked);
    let found = next.compare_exchange::<LinkArray, Nothing>(
        0,
        asked.ticket,
        front,
        &mut offer,
        pen,
    );
    if found != 0 {
        return Err(found);
    }
    Ok(())
}

/// Exchanges a word of an array that was linked, which still is unset, for the number `to`. Answers
/// what the word was where it was set; then nothing has changed.
pub(crate) fn copy<K: Eq + Hash, V, S: BuildHasher>(
    front: &mut Seen<Note<K, V, S>, u64, Law>,
    bucket: &Word<Note<K, V, S>, u64, Law>,
    to: u64,
    asked: &Copying,
) -> Result<(), u64>
    requires book { (bucket.now.tracked ≡ true) × (bucket.now.book ≡ front.old.book) }
    requires may { MayCopy K.eq (hash_in S.BuildHasher S.Hasher.Hasher K.hash_input)
        (place_in S.BuildHasher S.Hasher.Hasher K.hash_input) bucket.now.key to asked.now
        front.old.log }
    ensures book { front.new.book ≡ front.old.book }
    ensures leaves { OnOk result (Leaves K.eq
        (hash_in S.BuildHasher S.Hasher.Hasher K.hash_input)
        (place_in S.BuildHasher S.Hasher.Hasher K.hash_input) bucket.now.key 1
        (copy_note asked.now) front.old.log front.new.log) }
    ensures sees { IfErr result (λ found. Sees K.eq
        (hash_in S.BuildHasher S.Hasher.Hasher K.hash_input)
        (place_in S.BuildHasher S.Hasher.Hasher K.hash_input) bucket.now.key found
        front.old.log front.new.log) }
    ensures other { IfErr result (λ found. found ≢ 1) }
{
    let mut offer: Offer<Note<K, V, S>, u64, Law, Nothing> = front.plain::<
        Nothing,
        Copying,
        CopyWord,
    >(asked);
    let mut pen = front.no_pen();
    let found = bucket.compare_exchange::<CopyWord, Nothing>(1, to, front, &mut offer, &mut pen);
    if found != 1 {
        return Err(found);
    }
    Ok(())
}
