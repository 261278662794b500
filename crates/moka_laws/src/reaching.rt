//! Which states a run can reach, and how a run goes on.

ghost use Rattle.moka_laws.specs.Reaching.{FreshIsReached, LiveWasStarted, ReachedByEvent, ReachedByRun, ReachedByStep, ReachedBySteps, RunGoesOn, RunsAreWays};

/// A fresh cache is reached, with a log of any size but 0.
pub fn fresh_is_reached<K: Eq, V, E>()
    ensures reached { FreshIsReached K V E K.eq }
{}

/// An event on a reached state leaves a reached state.
pub fn reached_by_event<K: Eq, V, E>()
    ensures reached { ReachedByEvent K V E K.eq }
{}

/// A step of a live call on a reached state leaves a reached state.
pub fn reached_by_step<K: Eq, V, E>()
    ensures reached { ReachedByStep K V E K.eq }
{}

/// Steps of a live call on a reached state leave a reached state.
pub fn reached_by_steps<K: Eq, V, E>()
    ensures reached { ReachedBySteps K V E K.eq }
{}

/// A run of events on a reached state leaves a reached state.
pub fn reached_by_run<K: Eq, V, E>()
    ensures reached { ReachedByRun K V E K.eq }
{}

/// Every live call of a reached state was started on a reached state, from which some events led
/// here.
pub fn live_was_started<K: Eq, V, E>()
    ensures started { LiveWasStarted K V E K.eq }
{}

/// A run goes on by one event at its end.
pub fn run_goes_on<K: Eq, V, E>()
    ensures goes_on { RunGoesOn K V E K.eq }
{}

/// For each call of a run there is a way with the same ends, made of the call's own steps and of
/// events that leave it alone.
pub fn runs_are_ways<K: Eq, V, E>()
    ensures ways { RunsAreWays K V E K.eq }
{}
