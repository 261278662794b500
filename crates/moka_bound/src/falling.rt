//! What each step of a call leaves of its way.

ghost use Rattle.moka_bound.specs.Falling.{GoingFalls};

/// In a world that has what the step needs, each step that leaves a call going lowers the number of
/// steps that it may still make by itself, before it waits, asks or answers.
pub fn going_falls<K: Eq, V, E>()
    ensures falls { GoingFalls K V E K.eq }
{}
