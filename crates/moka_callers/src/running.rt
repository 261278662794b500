//! What a run is made of.

ghost use Rattle.moka_callers.specs.Running.{PollsAreSteps, RepliesAreSteps, RunSplits, RunsJoin};

/// A run on a list of events is a run on its beginning, and one on the rest.
pub fn run_splits<K: Eq, V, E>()
    ensures splits { RunSplits K V E K.eq }
{}

/// Two runs, one of which begins where the other ends, are a run on the events of both.
pub fn runs_join<K: Eq, V, E>()
    ensures joined { RunsJoin K V E K.eq }
{}

/// What a poll or a step of a live call replies is the reply of a step of that call: the last that
/// the event made, from a state that the run reached.
pub fn replies_are_steps<K: Eq, V, E>()
    ensures step { RepliesAreSteps K V E K.eq }
{}

/// A poll of a live call is a run of steps of that call: all but the last leave it going, and the
/// last replies what the poll does.
pub fn polls_are_steps<K: Eq, V, E>()
    ensures steps { PollsAreSteps K V E K.eq }
{}
