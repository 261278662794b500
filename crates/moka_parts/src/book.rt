//! The book of a table's history.
ghost use Rattle.std.specs.Prelude.{◌≡◌};

use crate::Note;
use crate::asked::Ticketed;
use logbook::{Gain, Plain, Play, Rule};
use std::hash::{BuildHasher, Hash};
use std::marker::Brand;

/// The rule of the book: each of its first words counts the changes of a part, by the next one
/// tickets are drawn, each ticket is spent on one change, and the history is legal.
pub struct Law;

impl<K: Eq + Hash, V, S: BuildHasher> Rule<Note<K, V, S>, u64> for Law {
    ghost use Rattle.std.specs.Prelude.{[]};
    ghost use base.Fml.{ftrue};
    ghost use Rattle.moka_parts.specs.Hashing.{part_in};
    ghost use Rattle.moka_parts.specs.Rules.{IsKept};

    ghost holds = { λ cells log. IsKept K.eq
        (part_in S.BuildHasher S.Hasher.Hasher K.hash_input) cells log };

    ghost first = { [] };

    ghost hinted = { λ n log. Unit {0} };

    ghost shows = { λ log. [] };

    ghost keeps = { λ names log. ftrue };

    ghost moves = { λ ask before after answer. Unit {0} };
}

/// Callers trade nothing.
pub struct Nothing;

impl<K, V, S> Gain<Note<K, V, S>, u64> for Nothing {
    ghost use base.Fml.{ftrue};

    ghost after = { λ names about answer. ftrue };
}

/// A step that looks.
pub struct Look;

impl<K: Eq + Hash, V, S: BuildHasher> Play<Note<K, V, S>, u64> for Look {
    ghost use Rattle.moka_parts.specs.Hashing.{part_in};
    ghost use Rattle.moka_parts.specs.Rules.{Looks};

    ghost then = { Looks K.eq (part_in S.BuildHasher S.Hasher.Hasher K.hash_input) };
}

impl<K, V, S> Plain<(), Note<K, V, S>, u64> for Look {
    ghost use Rattle.std.specs.Prelude.{None};
    ghost use Rattle.moka_parts.specs.declared.note.Note.TheVariants as note;

    ghost ask = { λ x. note.Nothing };

    ghost state = { λ x. None };
}

/// A step that draws a ticket.
pub struct Draw;

impl<K: Eq + Hash, V, S: BuildHasher> Play<Note<K, V, S>, u64> for Draw {
    ghost use Rattle.moka_parts.specs.Hashing.{part_in};
    ghost use Rattle.moka_parts.specs.Rules.{Draws};

    ghost then = { Draws K.eq (part_in S.BuildHasher S.Hasher.Hasher K.hash_input) };
}

/// A step that adds a change.
pub struct Add;

impl<K: Eq + Hash, V, S: BuildHasher> Play<Note<K, V, S>, u64> for Add {
    ghost use Rattle.moka_parts.specs.Hashing.{part_in};
    ghost use Rattle.moka_parts.specs.Rules.{Adds};

    ghost then = { Adds K.eq (part_in S.BuildHasher S.Hasher.Hasher K.hash_input) };
}

impl<'a, 'b, K: Eq + Hash, V, S: BuildHasher> Plain<Ticketed<'a, 'b, K, V, S>, Note<K, V, S>, u64>
    for Add {
    ghost use Rattle.std.specs.Prelude.{None};
    ghost use Rattle.moka_parts.specs.declared.note.Note.TheVariants.{Changed};
    ghost use Rattle.moka_parts.specs.Asks.{ticketed_change};

    ghost ask = { λ asked. Changed (ticketed_change K.eq asked) };

    ghost state = { λ asked. None };
}

/// Which book it is. Each call of a program picks it.
pub trait Naming {
    ghost use Rattle.logbook.specs.Pages.{Book};

    ghost book: { Book };
}

impl Naming for Brand {
    ghost book = { record { number = 0; log_name = 0; cells_name = 0 } };
}
