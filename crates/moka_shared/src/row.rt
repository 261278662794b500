//! Words for a new array.

use crate::book::Law;
use logbook::{Pen, Word};
use moka_history::Note;
use std::hash::{BuildHasher, Hash};

/// Words that were made for an array which is announced on this ticket. They are unset, and part of no
/// array so far, and neither is the one behind them, which is to name the array after this one. The pen
/// is that of the ticket.
#[derive(Drop)]
pub struct Row<K: Eq + Hash, V, S: BuildHasher> {
    pub(crate) ticket: u64,
    pub(crate) words: Vec<Word<Note<K, V, S>, u64, Law>>,
    pub(crate) behind: Word<Note<K, V, S>, u64, Law>,
    pub(crate) pen: Pen,
}

impl<K: Eq + Hash, V, S: BuildHasher> Row<K, V, S> {
    ghost use Rattle.std.specs.Prelude.{◌≡◌, length};

    /// The number that the array is announced under.
    pub fn ticket(&self) -> u64
        ensures { result ≡ self.now.ticket }
    {
        self.ticket
    }

    /// How many words there are.
    pub fn len(&self) -> usize
        ensures { result ≡ length self.now.words.items }
    {
        self.words.len()
    }
}
