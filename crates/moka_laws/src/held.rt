//! The writes that calls hold.

ghost use Rattle.moka_laws.specs.Held.{CallsMayLeave, DeskKnowsHeld};
ghost use Rattle.moka_laws.specs.Leaving.{RemovalsNameOld, UpsertsNameOld};

/// In every reached state the desk knows each write that a live call holds.
pub fn held_are_known<K: Eq, V, E>()
    ensures known { DeskKnowsHeld K V E K.eq }
{}

/// In every reached state each live call may leave the write that its plan holds. A call whose plan
/// holds none has taken none up.
pub fn calls_may_leave<K: Eq, V, E>()
    ensures leaves { CallsMayLeave K V E K.eq }
{}

/// A write that changes the map names the record whose place it took: an upsert the stamp of that
/// record, if there was one, and a removal the record itself.
pub fn writes_name_old<K: Eq, V, E>()
    ensures upsert { UpsertsNameOld K V E K.eq }
    ensures remove { RemovalsNameOld K V E K.eq }
{}
