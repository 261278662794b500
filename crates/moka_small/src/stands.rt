//! What holds of the small states that a cache is seen as.

ghost use Rattle.moka_small.specs.Standing.{OneOwnsEach, WaitersAreServed};

/// At most one live call owns a load: it asks what that gives, or was told.
pub fn one_owns_each<K: Eq, V, E>()
    ensures one { OneOwnsEach K V E K.eq }
{}

/// A call that waits has an owner: a live call that owns an equal load, or one that has ended, how
/// being kept.
pub fn waiters_are_served<K: Eq, V, E>()
    ensures served { WaitersAreServed K V E K.eq }
{}
