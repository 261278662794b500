//! Laws of what notes make of the words.

ghost use Rattle.moka_history.specs.Laws.{AnnouncedKeepsWords, ChangedSetsWord, CopiedSetsWord, LinkAddsArray, OpenedIsSound, RowsKeepWords, SealedSetsWord, SwungMovesRoot};

/// A table that was just opened has sound segments, of empty words alone, if its arrays are as long
/// as a power of two.
pub fn opened_is_sound<K, V, S>()
    ensures sound { OpenedIsSound K V S }
{}

/// A ticket that is drawn changes no word.
pub fn announced_keeps_words<K, V, S>()
    ensures keeps { AnnouncedKeepsWords K V S }
{}

/// A change sets its word, and no other, in the memory of each segment.
pub fn changed_sets_word<K, V, S>()
    ensures sets { ChangedSetsWord K V S }
{}

/// An array that is announced, and a row that is made, change no word.
pub fn rows_keep_words<K, V, S>()
    ensures keeps { RowsKeepWords K V S }
{}

/// A seal sets its word, and no other, in the memory of each segment.
pub fn sealed_sets_word<K, V, S>()
    ensures sets { SealedSetsWord K V S }
{}

/// A link adds an array of unset words to the memory of its segment, whatever number comes next.
pub fn link_adds_array<K, V, S>()
    ensures adds { LinkAddsArray K V S }
{}

/// A copy sets its word, and no other, in the memory of each segment.
pub fn copied_sets_word<K, V, S>()
    ensures sets { CopiedSetsWord K V S }
{}

/// A swing makes the array after a segment's root its root, and changes no word.
pub fn swung_moves_root<K, V, S>()
    ensures swings { SwungMovesRoot K V S }
{}
