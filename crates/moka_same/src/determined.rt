//! What a run is determined by.

ghost use Rattle.moka_same.specs.Determined.{RunsAreDetermined};

/// Two runs on the same events, from one reached state where no walk is live, reply the same, where
/// none of the events is a single step or starts a walk. They end in states that are equal but for
/// how often in a row an operation has stayed undecided.
pub fn runs_are_determined<K: Eq, V, E>()
    ensures same { RunsAreDetermined K V E K.eq }
{}
