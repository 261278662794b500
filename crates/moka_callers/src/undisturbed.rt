//! What a get finds that follows an insert undisturbed.

ghost use Rattle.moka_callers.specs.Undisturbed.{InsertedIsFound};

/// A get finds what was inserted, where no other call makes a step from the insert's start to the
/// get's answer. The insert may wait, and ask the listener of what it replaced; the clock may move
/// on, answers be told, calls be started and dropped. The record must be visible as the get judges
/// it, and the cache not be disabled.
pub fn inserted_is_found<K: Eq, V, E>()
    ensures found { InsertedIsFound K V E K.eq }
{}
