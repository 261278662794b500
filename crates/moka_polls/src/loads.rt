//! What the polls of loads do.

ghost use Rattle.moka_polls.specs.Loads.{LoadAsks, LoadHits, LoadWaits, NotTold, ToldError, ToldNothing, ToldValue, WaiterAnswers, WaiterWaits};

/// The first poll of a load. Where the load sees a value under its key it answers that value, not
/// fresh, and is gone. Else it asks its initializer, where nobody owns the load, and waits where
/// another call does.
pub fn loads_poll<K: Eq, V, E>()
    ensures hits { LoadHits K V E K.eq }
    ensures asks { LoadAsks K V E K.eq }
    ensures waits { LoadWaits K V E K.eq }
{}

/// The poll of a load that has asked its initializer. Told a value, the load stores it and answers
/// it, fresh. Told nothing or an error, it answers that and stores nothing. Those that wait for the
/// load can then read how it ended. As long as the load is told nothing it waits.
pub fn told_poll<K: Eq, V, E>()
    ensures value { ToldValue K V E K.eq }
    ensures nothing { ToldNothing K V E K.eq }
    ensures error { ToldError K V E K.eq }
    ensures untold { NotTold K V E K.eq }
{}

/// The poll of a load that waits for the owner of an equal one. Once that has ended, the load
/// answers the owner's value, not fresh, or nothing, or the owner's error. Until then it waits.
pub fn waits_poll<K: Eq, V, E>()
    ensures ended { WaiterAnswers K V E K.eq }
    ensures waits { WaiterWaits K V E K.eq }
{}
