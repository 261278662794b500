//! Where an answer comes from that a call was told.

ghost use Rattle.moka_callers.specs.Telling.{ToldWasTold};

/// In every reached state an answer that a call has still to take was told it by an event.
pub fn told_was_told<K: Eq, V, E>()
    ensures told { ToldWasTold K V E K.eq }
{}
