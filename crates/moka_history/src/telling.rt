//! Laws of logs that get one note more.

ghost use Rattle.moka_history.specs.Laws.{EntriesGoOn, StateGoesOn};

/// The state after one note more is what the note makes of the state before.
pub fn state_goes_on<K, V, S>()
    ensures state { StateGoesOn K V S }
{}

/// One note more adds its entry, if it is that of a change.
pub fn entries_go_on<K, V, S>()
    ensures entries { EntriesGoOn K V S }
{}
