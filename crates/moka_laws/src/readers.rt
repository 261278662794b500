//! Those that wait for an owner, and what is kept for them.

ghost use Rattle.moka_laws.specs.Readers.{NothingUnreadIsKept, ReadersAreCounted, WaitersAnswerSettled};

/// In every reached state `readers` counts exactly the calls that wait for an owner, all of them
/// live.
pub fn readers_are_counted<K: Eq, V, E>()
    ensures counted { ReadersAreCounted K V E K.eq }
{}

/// In every reached state the end of an owner is kept only while a live call has still to read it.
pub fn nothing_unread_is_kept<K: Eq, V, E>()
    ensures kept { NothingUnreadIsKept K V E K.eq }
{}

/// A waiter answers what its owner settled. A call waits for the owner of a load, which ends with a
/// value, an error or nothing: if it still waits after any events, its next step answers just that,
/// a value as not fresh.
pub fn waiters_answer_settled<K: Eq, V, E>()
    ensures answers { WaitersAnswerSettled K V E K.eq }
{}
