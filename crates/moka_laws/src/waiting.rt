//! When a step waits.

ghost use Rattle.moka_laws.specs.Waiting.{LiveCallsGoOn, WaitsByCause};

/// Every live call of a reached state has still something to do.
pub fn live_calls_go_on<K: Eq, V, E>()
    ensures goes_on { LiveCallsGoOn K V E K.eq }
{}

/// On a reached state a step replies Wait exactly where what the call's next item needs is missing.
/// Such a step changes nothing, but that the call is parked.
pub fn waits_by_cause<K: Eq, V, E>()
    ensures waits { WaitsByCause K V E K.eq }
{}
