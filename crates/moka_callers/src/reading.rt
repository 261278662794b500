//! What a get answers.

ghost use Rattle.moka_callers.specs.Reading.{GetsAnswerStored, ReadsSeeWrites};

/// A get answers what stood under its key in a state since its start: that value, or none where
/// nothing stood there, or where what stood isn't visible as its visit judges it. The cache is not
/// disabled.
pub fn gets_answer_stored<K: Eq, V, E>()
    ensures answers { GetsAnswerStored K V E K.eq }
{}

/// A get that was started once an insert of an equal key had answered reads what that put in, or
/// what a later step left there: another value, or nothing. It answers none where what stands isn't
/// visible.
pub fn reads_see_writes<K: Eq, V, E>()
    ensures sees { ReadsSeeWrites K V E K.eq }
{}
