//! Laws of fronts: what was found after one stays true.

ghost use Rattle.moka_history.specs.Keeping.{CallsStillFit, FoundIsHistory, FrontIsKept, FrontLasts, FullArrayWasPut, SealsAreNamed, TicketsAreSpentOnce, WordsChangeByEntries, WordsNamePairs};

/// Each front of a kept log is kept.
pub fn front_is_kept<K, V, S>()
    ensures kept { FrontIsKept K V S }
{}

/// The entries of a front begin those of the log; numbers keep their pairs, arrays and tickets their
/// cells, and memories become later ones.
pub fn front_lasts<K, V, S>()
    ensures lasts { FrontLasts K V S }
{}

/// A call that fitted after a front fits after the log, whichever keys have come.
pub fn calls_still_fit<K, V, S>()
    ensures fit { CallsStillFit K V S }
{}

/// What a call found under its key is what the map after the entries has there.
pub fn found_is_history<K, V, S>()
    ensures found { FoundIsHistory K V S }
{}

/// A node that stands in a word has a pair, whose key is of the segment.
pub fn words_name_pairs<K, V, S>()
    ensures pairs { WordsNamePairs K V S }
{}

/// A ticket has at most one entry, and it stays the only one.
pub fn tickets_are_spent_once<K, V, S>()
    ensures once { TicketsAreSpentOnce K V S }
{}

/// A word that isn't as it was after a front is sealed, or was changed by an entry past the front.
pub fn words_change_by_entries<K, V, S>()
    ensures change { WordsChangeByEntries K V S }
{}

/// An array of which each word names a node was filled by puts of as many different keys of the
/// segment.
pub fn full_array_was_put<K, V, S>()
    ensures puts { FullArrayWasPut K V S }
{}

/// The log names each seal of a word.
pub fn seals_are_named<K, V, S>()
    ensures named { SealsAreNamed K V S }
{}
