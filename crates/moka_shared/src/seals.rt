//! The step by which a word is sealed.
ghost use Rattle.std.specs.Prelude.{◌≡◌, ◌≢◌, true, IfErr, OnOk};
ghost use Rattle.moka_shared.specs.Asks.{seal_note};
ghost use Rattle.moka_shared.specs.Hashing.{hash_in, place_in};
ghost use Rattle.moka_shared.specs.Rows.{Leaves, MaySeal};
ghost use Rattle.moka_shared.specs.Steps.{Sees};

use crate::asked::Seal;
use crate::book::{Law, Nothing, SealWord};
use logbook::{Offer, Seen, Word};
use moka_history::Note;
use std::hash::{BuildHasher, Hash};

/// Exchanges a bucket whose word still is the number `from` for its seal. Answers what the word was
/// where it was another one; then nothing has changed.
pub(crate) fn seal<K: Eq + Hash, V, S: BuildHasher>(
    front: &mut Seen<Note<K, V, S>, u64, Law>,
    bucket: &Word<Note<K, V, S>, u64, Law>,
    from: u64,
    to: u64,
    asked: &Seal,
) -> Result<(), u64>
    requires book { (bucket.now.tracked ≡ true) × (bucket.now.book ≡ front.old.book) }
    requires may { MaySeal bucket.now.key from to asked.now front.old.log }
    ensures book { front.new.book ≡ front.old.book }
    ensures leaves { OnOk result (Leaves K.eq
        (hash_in S.BuildHasher S.Hasher.Hasher K.hash_input)
        (place_in S.BuildHasher S.Hasher.Hasher K.hash_input) bucket.now.key from
        (seal_note asked.now) front.old.log front.new.log) }
    ensures sees { IfErr result (λ found. Sees K.eq
        (hash_in S.BuildHasher S.Hasher.Hasher K.hash_input)
        (place_in S.BuildHasher S.Hasher.Hasher K.hash_input) bucket.now.key found
        front.old.log front.new.log) }
    ensures other { IfErr result (λ found. found ≢ from) }
{
    let mut offer: Offer<Note<K, V, S>, u64, Law, Nothing> = front.plain::<Nothing, Seal, SealWord>(
        asked,
    );
    let mut pen = front.no_pen();
    let found = bucket.compare_exchange::<SealWord, Nothing>(from, to, front, &mut offer, &mut pen);
    if found != from {
        return Err(found);
    }
    Ok(())
}
