//! What a removal that took nothing out has seen.

ghost use Rattle.moka_callers.specs.Missing.{EvictsKeptSeen, KeptUnlessUndecided, RemovesFoundNone};

/// A remove that answers none has found nothing under its key, in a state since its start.
pub fn removes_found_none<K: Eq, V, E>()
    ensures seen { RemovesFoundNone K V E K.eq }
{}

/// An evict that answers kept has seen why, in states since its start: nothing stood under the key;
/// a record of another stamp did; or the chosen one stood there, and the cause didn't hold of it.
pub fn evicts_kept_seen<K: Eq, V, E>()
    ensures seen { EvictsKeptSeen K V E K.eq }
{}

/// Where there is cause to keep the chosen record a step of its evict keeps it, or is a step of a
/// table operation which stays undecided.
pub fn kept_unless_undecided<K: Eq, V, E>()
    ensures kept { KeptUnlessUndecided K V E K.eq }
{}
