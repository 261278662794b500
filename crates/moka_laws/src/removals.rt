//! What is taken out and what is kept, and what a disabled cache does.

ghost use Rattle.moka_laws.specs.Removals.{ChosenStands, DisabledStoresNothing, EvictedIsOut, KeptByCause, MissedByCause, PlacesComeBack, RemovalsAnswer, RemoveAnswersTaken, StampsAreOne};

/// In every reached state of a cache of capacity 0 no record is stored, none ever was, and no write
/// or notice stands anywhere.
pub fn disabled_stores_nothing<K: Eq, V, E>()
    ensures nothing { DisabledStoresNothing K V E K.eq }
{}

/// In every reached state only a live call has places of a write: of the write that it holds, or of
/// a change that is not decided yet.
pub fn places_come_back<K: Eq, V, E>()
    ensures back { PlacesComeBack K V E K.eq }
{}

/// A call that was started to take a record out, and answers, has committed a removal, and answers
/// what it took out, which is stored no longer. Or it has committed none, and answers that it found
/// none.
pub fn removals_answer<K: Eq, V, E>()
    ensures answers { RemovalsAnswer K V E K.eq }
{}

/// A `remove` answers a value exactly where it has committed a removal.
pub fn remove_answers_taken<K: Eq, V, E>()
    ensures taken { RemoveAnswersTaken K V E K.eq }
{}

/// An evict that answers Evicted has committed the removal of the record of that stamp, which is
/// stored no longer.
pub fn evicted_is_out<K: Eq, V, E>()
    ensures out { EvictedIsOut K V E K.eq }
{}

/// On a reached state an evict keeps the chosen record exactly where it stands under the key no
/// longer, or the cause does not hold.
pub fn kept_by_cause<K: Eq, V, E>()
    ensures kept { KeptByCause K V E K.eq }
{}

/// A removal of whatever stands under a key finds nothing exactly where nothing stands there as its
/// table operation decides, and else takes out what stands there. It never decides that it found
/// nothing while a record stands.
pub fn missed_by_cause<K: Eq, V, E>()
    ensures missed { MissedByCause K V E K.eq }
{}

/// In every reached state under a listener the chosen record that a call is about to take out
/// stands under its key.
pub fn chosen_stands<K: Eq, V, E>()
    ensures stands { ChosenStands K V E K.eq }
{}

/// In every reached state records of one stamp stand under equal keys.
pub fn stamps_are_one<K: Eq, V, E>()
    ensures one { StampsAreOne K V E K.eq }
{}
