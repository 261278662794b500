//! When records were last accessed, and what an invalidation of all hides.

ghost use Rattle.moka_laws.specs.Moments.{AccessesAreInTime, AccessesAreSeen, InvalidatedStayUnseen, InvalidationHides};

/// In every reached state each stored record was last accessed when it was written or later, and
/// not after the clock. A step accesses a stored record, at the clock, exactly where it judges that
/// record and sees it: a look that misses doesn't.
pub fn accesses_are_seen<K: Eq, V, E>()
    ensures between { AccessesAreInTime K V E K.eq }
    ensures seen { AccessesAreSeen K V E K.eq }
{}

/// The step of a call that invalidates all hides just the records that were written before the
/// clock. From that step on no look shows such a record.
pub fn invalidated_are_unseen<K: Eq, V, E>()
    ensures hides { InvalidationHides K V E K.eq }
    ensures unseen { InvalidatedStayUnseen K V E K.eq }
{}
