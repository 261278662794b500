//! Laws of what lasts of words, and of what a call knows by it.

ghost use Rattle.moka_words.specs.Laws.{AbsentIsNew, EffectIsLater, ExchangeIsLater, LaterGoesOn, PassedStaysPassed, ProbeEndsAbsent};

/// Words later than later ones are later.
pub fn later_goes_on()
    ensures later { LaterGoesOn }
{}

/// An exchange of one word for a later one leaves later words.
pub fn exchange_is_later()
    ensures later { ExchangeIsLater }
{}

/// An access leaves a later memory: each array stands where it stood, with later words, and an
/// array that has been root stays one that has been root. An exchange has to be for a later word.
pub fn effect_is_later()
    ensures later { EffectIsLater }
{}

/// A bucket that a probe has passed has another key than the call's for good, whoever exchanges
/// words.
pub fn passed_stays_passed()
    ensures passed { PassedStaysPassed }
{}

/// No bucket has the call's key where its probe has passed buckets with other keys and comes to one
/// without a key, or has passed them all.
pub fn probe_ends_absent()
    ensures absent { ProbeEndsAbsent }
{}

/// Where the probe has ended so, the call's key is new to the array, at the bucket where the probe
/// stands.
pub fn absent_is_new()
    ensures new { AbsentIsNew }
{}
