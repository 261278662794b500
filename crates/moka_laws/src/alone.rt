//! What a call gives that is stepped with no step of others between.

ghost use Rattle.moka_laws.specs.Alone.{InsertThenGet};

/// An insert that answers by its own steps alone, so that it neither waits nor asks the listener,
/// is seen by the get that follows it. The get of an equal key, stepped right after it, answers the
/// inserted value, where the record is visible as the get judges it: under a time of 0 it isn't. The
/// cache must not be disabled.
pub fn insert_then_get<K: Eq, V, E>()
    ensures gives { InsertThenGet K V E K.eq }
{}
