//! What a table asks of a word.

ghost use Rattle.std.specs.Prelude.{◌≡◌, ◌↔◌, IsTrue};
ghost use Rattle.moka_words.specs.Words.{is_sealed, node_of, stored_in};
ghost use Rattle.moka_growth.specs.Left.{word_eq};
ghost use Rattle.moka_growth.specs.Counts.{tombstones_after};

use moka_words::Word;

/// The node that the word names.
pub fn node_of(word: Word) -> Option<u64>
    ensures { result ≡ node_of word }
{
    match word {
        Word::Live(node) | Word::SealedLive(node) => Some(node),
        Word::Tomb(node) | Word::SealedTomb(node) => Some(node),
        _ => None,
    }
}

/// The node whose key and record are stored in the word.
pub fn stored_in(word: Word) -> Option<u64>
    ensures { result ≡ stored_in word }
{
    match word {
        Word::Live(node) | Word::SealedLive(node) => Some(node),
        _ => None,
    }
}

/// Whether the word is sealed: then the array after its own has what it stores.
pub fn is_sealed(word: Word) -> bool
    ensures { result ≡ is_sealed word }
{
    match word {
        Word::SealedEmpty | Word::SealedLive(_) | Word::SealedTomb(_) => true,
        _ => false,
    }
}

/// Whether two words are one.
pub fn is_same(left: Word, right: Word) -> bool
    ensures { IsTrue result ↔ (left ≡ right) }
{
    left == right
}

/// The count of an array's tombstones once this word was put there. It stops at the greatest number.
pub fn tombstones_after(count: u64, word: Word) -> u64
    ensures { result ≡ tombstones_after count word }
{
    match word {
        Word::Tomb(_) => count.saturating_add(1),
        _ => count,
    }
}
