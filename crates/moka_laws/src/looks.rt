//! What looks show, by time: what is visible as the call's own visit judges it.

ghost use Rattle.moka_laws.specs.Looks.{GetsMiss, GetsShow, InsertsShow, LoadsShow, OwnersShow};

/// A get answers a value exactly where its own visit judges a record with that value, found by its
/// own look under its key, and the record is visible in that state. It answers none exactly where
/// the cache is disabled, where its table operation finds nothing, or where the record that its
/// visit judges isn't visible in that state.
pub fn gets_by_time<K: Eq, V, E>()
    ensures shows { GetsShow K V E K.eq }
    ensures misses { GetsMiss K V E K.eq }
{}

/// A load sees the record that its visit judges exactly where its replace test, if it has one,
/// doesn't hold and the record is visible in that state. The first look answers what it sees, as
/// not fresh, and so does that of an `or_insert`; the owner's look ends the load with it.
pub fn loads_by_time<K: Eq, V, E>()
    ensures shows { LoadsShow K V E K.eq }
    ensures inserts { InsertsShow K V E K.eq }
    ensures owners { OwnersShow K V E K.eq }
{}
