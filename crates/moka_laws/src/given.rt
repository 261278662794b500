//! What was given to the cache: it stores and hands out nothing else.

ghost use Rattle.moka_laws.specs.Given.{HandedIsGiven, SteppedIsGiven, StoredIsGiven};

/// After a run on a fresh cache each stored pair was given by an event of the run: by the start of
/// a call with that value and key, or by an answer told to a call that had asked for that key.
pub fn stored_is_given<K: Eq, V, E>()
    ensures given { StoredIsGiven K V E K.eq }
{}

/// After a run on a fresh cache each value that a call hands out was given by an event of the run
/// for an equal key. A call hands out a value in its answer, to its compute or to the listener.
pub fn handed_is_given<K: Eq, V, E>()
    ensures given { HandedIsGiven K V E K.eq }
    ensures stepped { SteppedIsGiven K V E K.eq }
{}
