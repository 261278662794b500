//! What starting, telling and dropping a call do.

ghost use Rattle.moka_small.specs.Laws.{DropIsGone, FreshIsEmpty, StartIsStarted, TellIsRefused, TellIsTold};

/// A fresh cache without durations and a listener is seen as the empty small state, unless its
/// capacity is 0.
pub fn fresh_is_empty<K: Eq, V, E>()
    ensures fresh { FreshIsEmpty K V E K.eq }
{}

/// A call that is started gets the next number, and stands at its beginning. Nothing else changes.
/// It is no compute, no invalidation of all and no walk, and has no replace test.
pub fn start_is_started<K: Eq, V, E>()
    ensures started { StartIsStarted K V E K.eq }
{}

/// A call that asks takes an answer that fits its load, and nothing else changes. Else the answer is
/// refused, and nothing changes.
pub fn tell_is_told<K: Eq, V, E>()
    ensures told { TellIsTold K V E K.eq }
    ensures refused { TellIsRefused K V E K.eq }
{}

/// A live call for which nobody waits is dropped, and is gone. Where it was the last that waited for
/// an owner which had ended, that is kept no longer.
pub fn drop_is_gone<K: Eq, V, E>()
    ensures gone { DropIsGone K V E K.eq }
{}
