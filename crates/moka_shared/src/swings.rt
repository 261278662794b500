//! The step by which a segment's root is swung.
ghost use Rattle.std.specs.Prelude.{◌≡◌, ◌≢◌, true, IfErr, OnOk};
ghost use Rattle.moka_shared.specs.Asks.{swing_note};
ghost use Rattle.moka_shared.specs.Hashing.{hash_in, place_in};
ghost use Rattle.moka_shared.specs.Rows.{Leaves};
ghost use Rattle.moka_shared.specs.Steps.{Sees};
ghost use Rattle.moka_shared.specs.Swings.{MaySwing};

use crate::asked::Swinging;
use crate::book::{Law, Nothing, SwingRoot};
use logbook::{Offer, Seen, Word};
use moka_history::Note;
use std::hash::{BuildHasher, Hash};

/// Exchanges the word for a segment's root, which still is 0, for the number of the array after its first
/// one. Answers what the word was where the root was another one; then nothing has changed.
pub(crate) fn swing<K: Eq + Hash, V, S: BuildHasher>(
    front: &mut Seen<Note<K, V, S>, u64, Law>,
    root: &Word<Note<K, V, S>, u64, Law>,
    asked: &Swinging,
) -> Result<(), u64>
    requires book { (root.now.tracked ≡ true) × (root.now.book ≡ front.old.book) }
    requires may { MaySwing K.eq (hash_in S.BuildHasher S.Hasher.Hasher K.hash_input)
        (place_in S.BuildHasher S.Hasher.Hasher K.hash_input) root.now.key asked.now
        front.old.log }
    ensures book { front.new.book ≡ front.old.book }
    ensures leaves { OnOk result (Leaves K.eq
        (hash_in S.BuildHasher S.Hasher.Hasher K.hash_input)
        (place_in S.BuildHasher S.Hasher.Hasher K.hash_input) root.now.key 0
        (swing_note asked.now) front.old.log front.new.log) }
    ensures sees { IfErr result (λ found. Sees K.eq
        (hash_in S.BuildHasher S.Hasher.Hasher K.hash_input)
        (place_in S.BuildHasher S.Hasher.Hasher K.hash_input) root.now.key found
        front.old.log front.new.log) }
    ensures other { IfErr result (λ found. found ≢ 0) }
{
    let mut offer: Offer<Note<K, V, S>, u64, Law, Nothing> = front.plain::<
        Nothing,
        Swinging,
        SwingRoot,
    >(asked);
    let mut pen = front.no_pen();
    let found = root.compare_exchange::<SwingRoot, Nothing>(
        0, asked.to, front, &mut offer, &mut pen,
    );
    if found != 0 {
        return Err(found);
    }
    Ok(())
}
