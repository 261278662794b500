//! What stands in the table, and by whom it was put there.

ghost use Rattle.moka_callers.specs.Contents.{CommitsAreMade, GetsCommitNothing, QuietCommitNothing, RecordsAreOfCalls, RecordsStand};

/// A stored record was put in by a step of the call of its stamp: under the key of that call, and
/// of the value that the call was started with, or was told as it had asked for the key.
pub fn records_are_of_calls<K: Eq, V, E>()
    ensures made { RecordsAreOfCalls K V E K.eq }
{}

/// A call that committed a write has put in a record of its own, or taken out what stood under a
/// key.
pub fn commits_are_made<K: Eq, V, E>()
    ensures made { CommitsAreMade K V E K.eq }
{}

/// Whatever events follow, each key has what it had before them, what a step on the way put in under
/// an equal key, or nothing, which a step on the way left by taking out.
pub fn records_stand<K: Eq, V, E>()
    ensures stands { RecordsStand K V E K.eq }
{}

/// A call whose answer tells of no change has committed nothing: that nothing was found, a value that
/// is not fresh, nothing, an error, that it gave up, unchanged, still none, kept.
pub fn quiet_commit_nothing<K: Eq, V, E>()
    ensures nothing { QuietCommitNothing K V E K.eq }
{}

/// A get that answers has committed nothing.
pub fn gets_commit_nothing<K: Eq, V, E>()
    ensures nothing { GetsCommitNothing K V E K.eq }
{}
