//! What calls ask of a word.

ghost use Rattle.std.specs.Prelude.{◌≡◌, is_none};
ghost use Rattle.moka_words.specs.Words.{is_sealed, node_of, stored_in};
ghost use Rattle.moka_growth.specs.Growing.{seal_of};

use moka_words::Word;

/// Answers the node whose pair the word stores, if it stores one.
pub fn stored_in(word: Word) -> Option<u64>
    ensures { result ≡ stored_in word }
{
    match word {
        Word::Live(node) | Word::SealedLive(node) => Some(node),
        _ => None,
    }
}

/// Answers whether the word is sealed: it never changes again.
pub fn is_sealed(word: Word) -> bool
    ensures { result ≡ is_sealed word }
{
    match word {
        Word::SealedEmpty | Word::SealedLive(_) | Word::SealedTomb(_) => true,
        _ => false,
    }
}

/// Answers whether the bucket of this word has no key.
pub fn is_free(word: Word) -> bool
    ensures { result ≡ is_none (node_of word) }
{
    match word {
        Word::Unset | Word::Empty | Word::SealedEmpty => true,
        _ => false,
    }
}

/// Answers the sealed form of the word.
pub fn seal_of(word: Word) -> Word
    ensures { result ≡ seal_of word }
{
    match word {
        Word::Unset | Word::Empty | Word::SealedEmpty => Word::SealedEmpty,
        Word::Live(node) | Word::SealedLive(node) => Word::SealedLive(node),
        Word::Tomb(node) | Word::SealedTomb(node) => Word::SealedTomb(node),
    }
}
