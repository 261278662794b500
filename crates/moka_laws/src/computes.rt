//! Computes: one at a time on a key, and what each asks and answers.

ghost use Rattle.moka_laws.specs.Computes.{ActingComputesOwn, AloneWaitsForNobody, AsksCarryFound, ComputesAnswerTold, ComputesAreOne, NopsAnswerAsked, NopsChangeNothing, OneComputeActs, OwnedUntilSettled, WaitsAreApart};

/// In every reached state at most one call owns the computes of equal keys.
pub fn computes_are_one<K: Eq, V, E>()
    ensures one { ComputesAreOne K V E K.eq }
{}

/// A compute asks, puts and takes out only while it owns the computes of its key.
pub fn acting_computes_own<K: Eq, V, E>()
    ensures own { ActingComputesOwn K V E K.eq }
{}

/// While a call owns the computes of a key, no other call asks, puts or takes out as a compute of
/// an equal key.
pub fn one_compute_acts<K: Eq, V, E>()
    ensures one { OneComputeActs K V E K.eq }
{}

/// A call that owns the computes of a key owns them until it settles.
pub fn owned_until_settled<K: Eq, V, E>()
    ensures owned { OwnedUntilSettled K V E K.eq }
{}

/// No compute waits for the owner of a load, and no load for the owner of a key's computes.
pub fn waits_are_apart<K: Eq, V, E>()
    ensures apart { WaitsAreApart K V E K.eq }
{}

/// A call that computes alone waits for no owner.
pub fn alone_waits_for_nobody<K: Eq, V, E>()
    ensures waits { AloneWaitsForNobody K V E K.eq }
{}

/// A compute asks with the pair that its own look found as the owner, if that was visible as the
/// compute's own visit judged it. It asks with none where that look missed, where the pair wasn't
/// visible then, or where the cache is disabled.
pub fn asks_carry_found<K: Eq, V, E>()
    ensures found { AsksCarryFound K V E K.eq }
{}

/// Once a compute was told nop or an error, none of its steps changes the map.
pub fn nops_change_nothing<K: Eq, V, E>()
    ensures same { NopsChangeNothing K V E K.eq }
{}

/// A compute that was told nop answers the value that it was asked with.
pub fn nops_answer_asked<K: Eq, V, E>()
    ensures asked { NopsAnswerAsked K V E K.eq }
{}

/// A compute answers by what it was told, and never what another compute settled. One that computes
/// alone beside an owner answers what its look found and its visit saw.
pub fn computes_answer_told<K: Eq, V, E>()
    ensures answers { ComputesAnswerTold K V E K.eq }
{}
