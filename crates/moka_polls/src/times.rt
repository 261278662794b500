//! What calls see where no record expires.

ghost use Rattle.moka_polls.specs.Times.{SeenWithoutTimes, StoredIsSeen};

/// Where no time is set, and nothing was invalidated, a call sees a record exactly where its replace
/// test, if it has one, doesn't hold on it. So one without a test sees what is stored.
pub fn seen_without_times<K: Eq, V, E>()
    ensures seen { SeenWithoutTimes K V E K.eq }
    ensures stored { StoredIsSeen K V E K.eq }
{}
