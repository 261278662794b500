//! What was given to a cache: it answers nothing else.

ghost use Rattle.moka_small.specs.Given.{DropGivesNone, EmptyHasNone, PollAnswersGiven, StartGives, TellGives};

/// A load answers a value that was stored or told for an equal key, and a get and a remove find one.
///
/// Whoever follows a cache keeps the list of the pairs that it was given: a start gives the pair
/// that its call is to store, and an answer the value of a load for the key of that. Polls and drops
/// give none.
pub fn answers_are_given<K: Eq, V, E>()
    ensures empty { EmptyHasNone K V E K.eq }
    ensures started { StartGives K V E K.eq }
    ensures told { TellGives K V E K.eq }
    ensures polled { PollAnswersGiven K V E K.eq }
    ensures dropped { DropGivesNone K V E K.eq }
{}
