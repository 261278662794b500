//! What a live call does by itself, as steps and polls of the state.

ghost use Rattle.moka_laws.specs.Moving.{CallsAreSafe, MoveIsStep, MovesAreSteps, PolledIsPoll};

/// A step of a live call by itself is a step of the state.
pub fn move_is_step<K: Eq, V, E>()
    ensures step { MoveIsStep K V E K.eq }
{}

/// Steps of a live call by itself that leave it going are steps of the state that leave it going.
pub fn moves_are_steps<K: Eq, V, E>()
    ensures steps { MovesAreSteps K V E K.eq }
{}

/// A poll of a live call by itself is a poll of the state.
pub fn polled_is_poll<K: Eq, V, E>()
    ensures poll { PolledIsPoll K V E K.eq }
{}

/// On a reached state the desk allows each visit that a live call makes, however far the call goes
/// on by itself.
pub fn calls_are_safe<K: Eq, V, E>()
    ensures safe { CallsAreSafe K V E K.eq }
{}
