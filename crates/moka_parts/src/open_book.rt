//! A book that was just opened.
ghost use Rattle.std.specs.Prelude.{◌≡◌, [], ◌∷◌, ◌<◌, ◌+◌, ◌-◌};
ghost use Rattle.moka_parts.specs.declared.note.Note.TheVariants.{Opened};

use crate::Note;
use crate::book::Law;
use logbook::{Opening, Pens, Seen, Start};
use std::hash::{BuildHasher, Hash};
use std::marker::Model;

/// How many parts a table has.
pub const PARTS: usize = 64;

/// How many words its book has: one a part, and one by which tickets are drawn.
const WORDS: usize = PARTS + 1;

/// The log of a book that was just opened.
struct Opens;

impl<K, V, S> Opening<S, Note<K, V, S>> for Opens {
    ghost use Rattle.std.specs.Prelude.{[], ◌∷◌};
    ghost use Rattle.moka_parts.specs.declared.note.Note.TheVariants.{Opened};

    ghost log = { λ count hasher. Opened hasher ∷ [] };
}

/// A book with an empty history, which has no name yet, and the hash builder of its table.
/// Contracts see which book it is, and the hash builder.
#[derive(Drop)]
pub struct OpenBook<K: Eq + Hash, V, S: BuildHasher> {
    pub(crate) hasher: S,
    pub(crate) seen: Seen<Note<K, V, S>, u64, Law>,
    pub(crate) pens: Pens,
}

impl<K: Eq + Hash, V, S: BuildHasher> Model for OpenBook<K, V, S> {
    ghost use Rattle.std.specs.Prelude.{◌≡◌, [], ◌∷◌};
    ghost use Rattle.logbook.specs.Pages.{Book};
    ghost use Rattle.moka_parts.specs.declared.note.Note.TheVariants.{Opened};

    ghost Value = { Book × S };

    ghost view = { λ b. (b.seen.book, b.hasher) };

    ghost invariant = { λ b. (b.seen.log ≡ Opened b.hasher ∷ []) × (b.pens.book ≡ b.seen.book)
        × (b.pens.next ≡ 0) × (b.pens.left ≡ 65) };
}

impl<K: Eq + Hash, V, S: BuildHasher> OpenBook<K, V, S> {
    /// Opens a book for a table with this hash builder. It takes no memory.
    pub fn new(hasher: S) -> Self
        ensures { result.1 ≡ hasher }
    {
        Self::of(hasher, WORDS)
    }

    // Opens a book of so many words. Of a number that has a name no list of them is written out.
    fn of(hasher: S, words: usize) -> Self
        requires { words ≡ 65 }
        ensures { result.1 ≡ hasher }
    {
        let (seen, pens) = Seen::open_row::<S, Opens>(&hasher, Start::alone(), words);
        OpenBook { hasher, seen, pens }
    }
}
