//! What the polls of calls that store a value do.

ghost use Rattle.moka_polls.specs.Writes.{InsertPoll, OrInsertHits, OrInsertStores};

/// The first poll of an insert answers that it is done. The value is stored under the call's key,
/// with the call's number as its stamp and the clock as its moment. The call is gone, and what the
/// desk keeps of calls stays as it was.
pub fn insert_poll<K: Eq, V, E>()
    ensures done { InsertPoll K V E K.eq }
{}

/// The first poll of an `or_insert`. Where a visible record is stored under its key it answers its
/// value, not fresh, and changes nothing. Else it stores its own value and answers it, fresh. The
/// call is gone.
pub fn or_insert_poll<K: Eq, V, E>()
    ensures hits { OrInsertHits K V E K.eq }
    ensures stores { OrInsertStores K V E K.eq }
{}
