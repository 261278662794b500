//! The law of exchanges.

ghost use Rattle.moka_words.specs.Laws.{ExchangeKeepsArray};

/// An array stays one where a word is exchanged for a later one: a key keeps its bucket, and a
/// bucket without a key gets a key that is new to the array, whose probe comes there.
pub fn exchange_keeps_array()
    ensures keeps { ExchangeKeepsArray }
{}
