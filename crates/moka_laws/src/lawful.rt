//! What holds in every state of a run.

ghost use Rattle.moka_laws.specs.Lawful.{EventIsLawful, LawfulRunGoesOn, ReachedIsLawful, RunIsLawful, StepsAreLawful};

/// Every reached state is lawful: each committed write stands in exactly one place, no other write
/// stands anywhere, and no key and kind has two open initializers.
pub fn reached_is_lawful<K: Eq, V, E>()
    ensures lawful { ReachedIsLawful K V E K.eq }
{}

/// The steps of one call on a reached state go through lawful states.
pub fn steps_are_lawful<K: Eq, V, E>()
    ensures lawful { StepsAreLawful K V E K.eq }
{}

/// An event on a reached state goes through lawful states.
pub fn event_is_lawful<K: Eq, V, E>()
    ensures lawful { EventIsLawful K V E K.eq }
{}

/// A run from a reached state goes through lawful states.
pub fn run_is_lawful<K: Eq, V, E>()
    ensures lawful { RunIsLawful K V E K.eq }
{}

/// A run through lawful states goes on by one event at its end.
pub fn lawful_run_goes_on<K: Eq, V, E>()
    ensures goes_on { LawfulRunGoesOn K V E K.eq }
{}
