//! What becomes of the write of a call that has answered.

ghost use Rattle.moka_laws.specs.Answered.{AnsweredIsPosted, PostedStays, StoredIsCommitted};

/// A call whose answer says that it stored a value has committed its write: an insert that is done,
/// or a load whose own initializer gave a value. A disabled cache stores none.
pub fn stored_is_committed<K: Eq, V, E>()
    ensures committed { StoredIsCommitted K V E K.eq }
{}

/// Once a call has answered, the write that it committed, if any, is logged or applied.
pub fn answered_is_posted<K: Eq, V, E>()
    ensures posted { AnsweredIsPosted K V E K.eq }
{}

/// A write that is logged or applied stays so, whatever follows.
pub fn posted_stays<K: Eq, V, E>()
    ensures stays { PostedStays K V E K.eq }
{}
