//! Which calls are live.

ghost use Rattle.moka_callers.specs.Living.{LivesByReplies, ModesByReplies, NumbersGoUp};

/// A call is live exactly from the reply that gave it its number, until it answers or is dropped.
pub fn lives_by_replies<K: Eq, V, E>()
    ensures lives { LivesByReplies K V E K.eq }
{}

/// The calls that a run starts get the next numbers, one after the other, so none twice.
pub fn numbers_go_up<K: Eq, V, E>()
    ensures numbers { NumbersGoUp K V E K.eq }
{}

/// A call whose step replied Going is between two steps, where it can't be dropped; one that replied
/// Wait, an ask or an item is parked; one that answered is live no longer.
pub fn modes_by_replies<K: Eq, V, E>()
    ensures modes { ModesByReplies K V E K.eq }
{}
