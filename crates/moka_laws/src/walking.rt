//! What a walk gives.

ghost use Rattle.moka_laws.specs.Walks.{ItemsAreApart, ItemsAreFound, ItemsAreWalks};
ghost use Rattle.moka_laws.specs.Walks.{ListsAreStarted, LooksAreApart, ScansShow, StoredAreFound, UndisturbedShow};

/// A list of keys is begun by a call that was started: a number that wasn't given out has none.
pub fn lists_are_started<K: Eq, V, E>()
    ensures started { ListsAreStarted K V E K.eq }
{}

/// In any world a step replies an item only of a call that walks, and only where the call judges a
/// record with that key and that value.
pub fn items_are_walks<K: Eq, V, E>()
    ensures walks { ItemsAreWalks K V E K.eq }
{}

/// A walk's step that judges a record gives it exactly where it is visible in that state.
pub fn scans_show<K: Eq, V, E>()
    ensures shows { ScansShow K V E K.eq }
{}

/// Each item of a walk is a pair that the walk's own look found under a listed key, and that is
/// visible in the state in which the walk judges it.
pub fn items_are_found<K: Eq, V, E>()
    ensures found { ItemsAreFound K V E K.eq }
{}

/// No two items of one walk have equal keys, whatever happens between them.
pub fn items_are_apart<K: Eq, V, E>()
    ensures apart { ItemsAreApart K V E K.eq }
{}

/// No walk looks up equal keys twice, whatever happens between the looks.
pub fn looks_are_apart<K: Eq, V, E>()
    ensures apart { LooksAreApart K V E K.eq }
{}

/// A walk that ends has looked up, found and judged each key that was stored in each state from its
/// first step on.
pub fn stored_are_found<K: Eq, V, E>()
    ensures found { StoredAreFound K V E K.eq }
{}

/// A walk with no step of another call in between its own, and the clock still, gives each visible
/// record once, and nothing else.
pub fn undisturbed_show<K: Eq, V, E>()
    ensures shows { UndisturbedShow K V E K.eq }
{}
