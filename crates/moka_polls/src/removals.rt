//! What the polls of calls that take a record out do.

ghost use Rattle.moka_polls.specs.Removals.{EvictPoll, InvalidateAllPoll, InvalidatePoll, RemovePoll};

/// The first poll of an invalidate answers that it is done. What was stored under its key is taken
/// out, and the call is gone.
pub fn invalidate_poll<K: Eq, V, E>()
    ensures done { InvalidatePoll K V E K.eq }
{}

/// The first poll of a remove answers the value that was stored under its key, if there was one.
/// The record is taken out, and the call is gone.
pub fn remove_poll<K: Eq, V, E>()
    ensures answers { RemovePoll K V E K.eq }
{}

/// The poll of an invalidation of all answers that it is done. Records that were written before the
/// clock are hidden from then on, and stay stored. The call is gone.
pub fn invalidate_all_poll<K: Eq, V, E>()
    ensures done { InvalidateAllPoll K V E K.eq }
{}

/// The first poll of an eviction. Where the record of the chosen version stands under the key, and
/// has still to leave for the cause, it is taken out and the call answers evicted. Else the call
/// answers kept, and nothing changes.
pub fn evict_poll<K: Eq, V, E>()
    ensures answers { EvictPoll K V E K.eq }
{}
