//! How long a call goes on by itself.

ghost use Rattle.moka_laws.specs.Bounded.{LogsHaveRoom, StepEventsAreBounded, StepsAreBounded};

/// In every reached state the log, once empty, has room for a write.
pub fn logs_have_room<K: Eq, V, E>()
    ensures room { LogsHaveRoom K V E K.eq }
{}

/// From a reached state on, a call that is stepped alone replies other than Going after fewer steps
/// than `64 * (4 + seg + owed + logged + tests)`, where `seg` is `128 + 3 * peak`. There `peak` is the
/// most keys that were ever stored, and the other three count the writes that are owed and logged and
/// the predicates that are registered as the first of these steps is made. For a call that walks then,
/// or does maintenance, `64 * seg + seg * seg` stands for `seg`: it lists at most 64 parts, and looks
/// up no more keys than two arrays could hold.
pub fn steps_are_bounded<K: Eq, V, E>()
    ensures bounded { StepsAreBounded K V E K.eq }
{}

/// If one call is stepped as often as the bound says, with no other event between, one of these
/// steps has another reply than Going.
pub fn step_events_are_bounded<K: Eq, V, E>()
    ensures bounded { StepEventsAreBounded K V E K.eq }
{}
