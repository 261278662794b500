//! The book of a table's history.

use crate::asked::{Brought, Copying, Drawn, Exchange, Linking, Planned, Seal, Swinging};
use logbook::{Gain, Plain, Play, Rule};
use moka_history::Note;
use std::hash::{BuildHasher, Hash};

/// The rule of the book: that of `moka_history`, with the hashes of the table's hash builder.
pub struct Law;

impl<K: Eq + Hash, V, S: BuildHasher> Rule<Note<K, V, S>, u64> for Law {
    ghost use Rattle.std.specs.Prelude.{[]};
    ghost use base.Fml.{ftrue};
    ghost use Rattle.moka_history.specs.Rules.{Holds};
    ghost use Rattle.moka_shared.specs.Hashing.{hash_in, place_in};

    ghost holds = { λ cells log. Holds K.eq (hash_in S.BuildHasher S.Hasher.Hasher K.hash_input)
        (place_in S.BuildHasher S.Hasher.Hasher K.hash_input) cells log };

    ghost first = { [] };

    ghost hinted = { λ n log. Unit {0} };

    ghost shows = { λ log. [] };

    ghost keeps = { λ names log. ftrue };

    ghost moves = { λ ask before after answer. Unit {0} };
}

/// Callers trade nothing.
pub struct Nothing;

impl<K, V, S> Gain<Note<K, V, S>, u64> for Nothing {
    ghost use base.Fml.{ftrue};

    ghost after = { λ names about answer. ftrue };
}

/// A step that looks.
pub struct Look;

impl<K: Eq + Hash, V, S: BuildHasher> Play<Note<K, V, S>, u64> for Look {
    ghost use Rattle.moka_history.specs.Moving.{Looks};
    ghost use Rattle.moka_shared.specs.Hashing.{hash_in, place_in};

    ghost then = { Looks K.eq (hash_in S.BuildHasher S.Hasher.Hasher K.hash_input)
        (place_in S.BuildHasher S.Hasher.Hasher K.hash_input) };
}

impl<K, V, S> Plain<(), Note<K, V, S>, u64> for Look {
    ghost use Rattle.std.specs.Prelude.{None};
    ghost use Rattle.moka_history.specs.declared.note.Note.TheVariants.{Announced};

    ghost ask = { λ x. Announced 0 None };

    ghost state = { λ x. None };
}

/// A step that draws a ticket.
pub struct Draw;

impl<K: Eq + Hash, V, S: BuildHasher> Play<Note<K, V, S>, u64> for Draw {
    ghost use Rattle.moka_history.specs.Moving.{Announces};
    ghost use Rattle.moka_shared.specs.Hashing.{hash_in, place_in};

    ghost then = { Announces K.eq (hash_in S.BuildHasher S.Hasher.Hasher K.hash_input)
        (place_in S.BuildHasher S.Hasher.Hasher K.hash_input) };
}

impl<'a, K, V, S> Plain<Drawn<'a, K, V>, Note<K, V, S>, u64> for Draw {
    ghost use Rattle.std.specs.Prelude.{None};
    ghost use Rattle.moka_shared.specs.Asks.{drawn_note};

    ghost ask = { λ drawn. drawn_note drawn };

    ghost state = { λ drawn. None };
}

/// A step that exchanges a bucket.
pub struct Change;

impl<K: Eq + Hash, V, S: BuildHasher> Play<Note<K, V, S>, u64> for Change {
    ghost use Rattle.moka_shared.specs.Hashing.{hash_in, place_in};
    ghost use Rattle.moka_shared.specs.Steps.{ChangesOrStays};

    ghost then = { ChangesOrStays K.eq (hash_in S.BuildHasher S.Hasher.Hasher K.hash_input)
        (place_in S.BuildHasher S.Hasher.Hasher K.hash_input) };
}

impl<K, V, S> Plain<Exchange, Note<K, V, S>, u64> for Change {
    ghost use Rattle.std.specs.Prelude.{None};
    ghost use Rattle.moka_shared.specs.Asks.{exchange_note};

    ghost ask = { λ exchange. exchange_note exchange };

    ghost state = { λ exchange. None };
}

/// A step that draws a ticket for an array.
pub struct Announce;

impl<K: Eq + Hash, V, S: BuildHasher> Play<Note<K, V, S>, u64> for Announce {
    ghost use Rattle.moka_history.specs.Moving.{AnnouncesArray};
    ghost use Rattle.moka_shared.specs.Hashing.{hash_in, place_in};

    ghost then = { AnnouncesArray K.eq (hash_in S.BuildHasher S.Hasher.Hasher K.hash_input)
        (place_in S.BuildHasher S.Hasher.Hasher K.hash_input) };
}

impl<K, V, S> Plain<Planned, Note<K, V, S>, u64> for Announce {
    ghost use Rattle.std.specs.Prelude.{None};
    ghost use Rattle.moka_shared.specs.Asks.{planned_note};

    ghost ask = { λ planned. planned_note planned };

    ghost state = { λ planned. None };
}

/// A step that adds a cell to a row.
pub struct AddCell;

impl<K: Eq + Hash, V, S: BuildHasher> Play<Note<K, V, S>, u64> for AddCell {
    ghost use Rattle.moka_history.specs.Moving.{Adds};
    ghost use Rattle.moka_shared.specs.Hashing.{hash_in, place_in};

    ghost then = { Adds K.eq (hash_in S.BuildHasher S.Hasher.Hasher K.hash_input)
        (place_in S.BuildHasher S.Hasher.Hasher K.hash_input) };
}

impl<K, V, S> Plain<u64, Note<K, V, S>, u64> for AddCell {
    ghost use Rattle.std.specs.Prelude.{None};
    ghost use Rattle.moka_shared.specs.Asks.{added_note};

    ghost ask = { λ ticket. added_note ticket };

    ghost state = { λ ticket. None };
}

/// A step that brings a cell of a row home.
pub struct BringHome;

impl<K: Eq + Hash, V, S: BuildHasher> Play<Note<K, V, S>, u64> for BringHome {
    ghost use Rattle.moka_history.specs.Moving.{BringsHome};
    ghost use Rattle.moka_shared.specs.Hashing.{hash_in, place_in};

    ghost then = { BringsHome K.eq (hash_in S.BuildHasher S.Hasher.Hasher K.hash_input)
        (place_in S.BuildHasher S.Hasher.Hasher K.hash_input) };
}

impl<'a, K, V, S> Plain<Brought<'a>, Note<K, V, S>, u64> for BringHome {
    ghost use Rattle.std.specs.Prelude.{None};
    ghost use Rattle.moka_shared.specs.Asks.{brought_note};

    ghost ask = { λ brought. brought_note brought };

    ghost state = { λ brought. None };
}

/// A step that exchanges a bucket for its seal.
pub struct SealWord;

impl<K: Eq + Hash, V, S: BuildHasher> Play<Note<K, V, S>, u64> for SealWord {
    ghost use Rattle.moka_history.specs.Moving.{Seals};
    ghost use Rattle.moka_shared.specs.Hashing.{hash_in, place_in};

    ghost then = { Seals K.eq (hash_in S.BuildHasher S.Hasher.Hasher K.hash_input)
        (place_in S.BuildHasher S.Hasher.Hasher K.hash_input) };
}

impl<K, V, S> Plain<Seal, Note<K, V, S>, u64> for SealWord {
    ghost use Rattle.std.specs.Prelude.{None};
    ghost use Rattle.moka_shared.specs.Asks.{seal_note};

    ghost ask = { λ seal. seal_note seal };

    ghost state = { λ seal. None };
}

/// A step that links an array.
pub struct LinkArray;

impl<K: Eq + Hash, V, S: BuildHasher> Play<Note<K, V, S>, u64> for LinkArray {
    ghost use Rattle.moka_history.specs.Moving.{Joins};
    ghost use Rattle.moka_shared.specs.Hashing.{hash_in, place_in};

    ghost then = { Joins K.eq (hash_in S.BuildHasher S.Hasher.Hasher K.hash_input)
        (place_in S.BuildHasher S.Hasher.Hasher K.hash_input) };
}

impl<K, V, S> Plain<Linking, Note<K, V, S>, u64> for LinkArray {
    ghost use Rattle.std.specs.Prelude.{None};
    ghost use Rattle.moka_shared.specs.Asks.{link_note};

    ghost ask = { λ linking. link_note linking };

    ghost state = { λ linking. None };
}

/// A step that copies a word.
pub struct CopyWord;

impl<K: Eq + Hash, V, S: BuildHasher> Play<Note<K, V, S>, u64> for CopyWord {
    ghost use Rattle.moka_history.specs.Moving.{Copies};
    ghost use Rattle.moka_shared.specs.Hashing.{hash_in, place_in};

    ghost then = { Copies K.eq (hash_in S.BuildHasher S.Hasher.Hasher K.hash_input)
        (place_in S.BuildHasher S.Hasher.Hasher K.hash_input) };
}

impl<K, V, S> Plain<Copying, Note<K, V, S>, u64> for CopyWord {
    ghost use Rattle.std.specs.Prelude.{None};
    ghost use Rattle.moka_shared.specs.Asks.{copy_note};

    ghost ask = { λ copying. copy_note copying };

    ghost state = { λ copying. None };
}

/// A step that swings a segment's root.
pub struct SwingRoot;

impl<K: Eq + Hash, V, S: BuildHasher> Play<Note<K, V, S>, u64> for SwingRoot {
    ghost use Rattle.moka_history.specs.Moving.{Swings};
    ghost use Rattle.moka_shared.specs.Hashing.{hash_in, place_in};

    ghost then = { Swings K.eq (hash_in S.BuildHasher S.Hasher.Hasher K.hash_input)
        (place_in S.BuildHasher S.Hasher.Hasher K.hash_input) };
}

impl<K, V, S> Plain<Swinging, Note<K, V, S>, u64> for SwingRoot {
    ghost use Rattle.std.specs.Prelude.{None};
    ghost use Rattle.moka_shared.specs.Asks.{swing_note};

    ghost ask = { λ swinging. swing_note swinging };

    ghost state = { λ swinging. None };
}
