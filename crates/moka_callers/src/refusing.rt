//! Why an event is refused.

ghost use Rattle.moka_callers.specs.Refusing.{RefusedByCause};

/// An event is refused exactly where its cause holds in the state before it, and then nothing
/// changes: a move of the clock back, a start where the greatest number was given out, a step, a
/// poll or a drop of no live call, a drop between two steps, an answer that no open ask takes.
pub fn refused_by_cause<K: Eq, V, E>()
    ensures refused { RefusedByCause K V E K.eq }
{}
