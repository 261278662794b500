//! What a call may have to wait for can still come.

ghost use Rattle.moka_laws.specs.Missing.{MissingCanCome, TurnIsHeld, WaitersHaveOwners};

/// In every reached state the live call that applies the log, if there is one, has the turn. It
/// can't be dropped there, so the turn is not lost.
pub fn turn_is_held<K: Eq, V, E>()
    ensures held { TurnIsHeld K V E K.eq }
{}

/// In every reached state a call that waits for an owner has one: a live call that owns an equal
/// load or compute, or an end that is there to be read.
pub fn waiters_have_owners<K: Eq, V, E>()
    ensures served { WaitersHaveOwners K V E K.eq }
{}

/// In every reached state what a live call waits for can still come: the call that has the turn and
/// the owner are live, and its own ask is open. A key's lock is held by a live call, or kept by a
/// running notice whose end would be taken.
pub fn missing_can_come<K: Eq, V, E>()
    ensures comes { MissingCanCome K V E K.eq }
{}
