//! Words of a table by the numbers that its book holds.
ghost use Rattle.std.specs.Prelude.{◌≡◌, ◌<◌, ◌^◌};
ghost use Rattle.moka_history.specs.Cells.{number_of};
ghost use Rattle.moka_history.specs.Keeping.{IsSmall};
ghost use Rattle.moka_growth.specs.Growing.{seal_of};
ghost use Rattle.moka_words.specs.Words.{is_sealed, stored_in};
ghost use Rattle.moka_words.specs.declared.words.Word.{Word};

use moka_words::Word;

/// The number of live words begins here, and each further kind as far behind the one before.
const LIVE: u64 = 1 << 61;

/// The word of a number.
#[tactic(auto, using(crate::proofs::Numbered::is_live, crate::proofs::Numbered::is_tomb, crate::proofs::Numbered::is_sealed_live, crate::proofs::Numbered::is_sealed_tomb))]
pub(crate) fn word_of(number: u64) -> Word
    ensures { (w : Word) → IsSmall w → number ≡ number_of w → result ≡ w }
{
    if number < LIVE {
        return bare(number);
    }
    if number < 2 * LIVE {
        return Word::Live(number - LIVE);
    }
    if number < 3 * LIVE {
        return Word::Tomb(number - 2 * LIVE);
    }
    if number < 4 * LIVE {
        return Word::SealedLive(number - 3 * LIVE);
    }
    Word::SealedTomb(number - 4 * LIVE)
}

// The word of a number that names no node.
fn bare(number: u64) -> Word
    requires { number < 2 ^ 61 }
    ensures { (w : Word) → number ≡ number_of w → result ≡ w }
{
    match number {
        0 => Word::Empty,
        1 => Word::Unset,
        _ => Word::SealedEmpty,
    }
}

/// The number of a word.
pub(crate) fn number_of(word: Word) -> u64
    requires { IsSmall word }
    ensures { result ≡ number_of word }
{
    match word {
        Word::Empty => 0,
        Word::Unset => 1,
        Word::SealedEmpty => 2,
        Word::Live(number) => LIVE + number,
        Word::Tomb(number) => 2 * LIVE + number,
        Word::SealedLive(number) => 3 * LIVE + number,
        Word::SealedTomb(number) => 4 * LIVE + number,
    }
}

/// The node whose pair is stored in the word.
pub(crate) fn stored_in(word: Word) -> Option<u64>
    ensures { result ≡ stored_in word }
{
    match word {
        Word::Live(number) => Some(number),
        Word::Unset => None,
        Word::Empty => None,
        Word::Tomb(_) => None,
        Word::SealedEmpty => None,
        Word::SealedLive(number) => Some(number),
        Word::SealedTomb(_) => None,
    }
}

/// The word is sealed.
pub(crate) fn is_sealed(word: Word) -> bool
    ensures { result ≡ is_sealed word }
{
    match word {
        Word::SealedEmpty => true,
        Word::SealedLive(_) => true,
        Word::SealedTomb(_) => true,
        Word::Unset => false,
        Word::Empty => false,
        Word::Live(_) => false,
        Word::Tomb(_) => false,
    }
}

/// The seal of a word.
pub(crate) fn seal_of(word: Word) -> Word
    ensures { result ≡ seal_of word }
{
    match word {
        Word::Unset => Word::SealedEmpty,
        Word::Empty => Word::SealedEmpty,
        Word::Live(number) => Word::SealedLive(number),
        Word::Tomb(number) => Word::SealedTomb(number),
        Word::SealedEmpty => word,
        Word::SealedLive(_) => word,
        Word::SealedTomb(_) => word,
    }
}
