//! What the poll of a get does.

ghost use Rattle.moka_polls.specs.Gets.{GetPoll};

/// The first poll of a get answers the value that is stored under its key, if there is one and the
/// record is visible. The call is gone, and the table and what the desk keeps of calls stay as they
/// were.
pub fn get_poll<K: Eq, V, E>()
    ensures answers { GetPoll K V E K.eq }
{}
