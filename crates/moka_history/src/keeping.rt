//! Laws of the rule that the cells of a book keep with its log.

ghost use Rattle.moka_history.specs.Keeping.{AnnouncingKeeps, ArrayAnnouncingKeeps, ArraysHaveRows, CellAddingKeeps, CellBringingKeeps, CellsHoldWords, ChangingKeeps, CopyIsThere, CopyingKeeps, LinkIsThere, LinkingKeeps, LookKeeps, NumbersTellWords, OpeningIsKept, SealingKeeps, SwingIsThere, SwingingKeeps};

/// The book of a table that was just opened keeps the rule.
pub fn opening_is_kept<K, V, S>()
    ensures kept { OpeningIsKept K V S }
{}

/// An array of the opening has a row of cells.
pub fn arrays_have_rows<K, V, S>()
    ensures rows { ArraysHaveRows K V S }
{}

/// The first cell counts the tickets drawn, the cells of arrays hold the words by their numbers, and
/// that of a ticket says whether it is home.
pub fn cells_hold_words<K, V, S>()
    ensures hold { CellsHoldWords K V S }
{}

/// Two words whose nodes have small numbers are one word, if their cells hold one number.
pub fn numbers_tell_words()
    ensures tell { NumbersTellWords }
{}

/// A step that leaves a word as it is keeps the rule.
pub fn look_keeps<K, V, S>()
    ensures keeps { LookKeeps K V S }
{}

/// A step that draws the next ticket, and names its pair, keeps the rule.
pub fn announcing_keeps<K, V, S>()
    ensures keeps { AnnouncingKeeps K V S }
{}

/// The exchange of a word by a fitting call, on a ticket that wasn't spent, keeps the rule. It adds
/// one entry.
pub fn changing_keeps<K, V, S>()
    ensures keeps { ChangingKeeps K V S }
{}

/// A step that draws the next ticket for an array keeps the rule.
pub fn array_announcing_keeps<K, V, S>()
    ensures keeps { ArrayAnnouncingKeeps K V S }
{}

/// A step that adds a cell to the row of an array that is announced keeps the rule.
pub fn cell_adding_keeps<K, V, S>()
    ensures keeps { CellAddingKeeps K V S }
{}

/// A step that brings such a cell home, with an unset word, keeps the rule.
pub fn cell_bringing_keeps<K, V, S>()
    ensures keeps { CellBringingKeeps K V S }
{}

/// The exchange of a word for its seal keeps the rule, and adds no entry.
pub fn sealing_keeps<K, V, S>()
    ensures keeps { SealingKeeps K V S }
{}

/// The link of an array that is ready for it keeps the rule, and adds no entry. It is what a call of
/// the segment wants that has sealed all words of the array before.
pub fn linking_keeps<K, V, S>()
    ensures keeps { LinkingKeeps K V S }
{}

/// Where another array was linked, such a call sees that one.
pub fn link_is_there<K, V, S>()
    ensures there { LinkIsThere K V S }
{}

/// The copy of a word into an array that was linked keeps the rule, where the word was unset, and adds
/// no entry. It is what a call of the segment wants that copies.
pub fn copying_keeps<K, V, S>()
    ensures keeps { CopyingKeeps K V S }
{}

/// Where the word is set, such a call leaves it.
pub fn copy_is_there<K, V>()
    ensures there { CopyIsThere K V }
{}

/// The step that makes the array after a segment's root its root keeps the rule, and adds no entry. It is
/// what a call of the segment wants that has seen each word of that array set.
pub fn swinging_keeps<K, V, S>()
    ensures keeps { SwingingKeeps K V S }
{}

/// Where the root is another one by now, such a call leaves all as it is.
pub fn swing_is_there<K, V, S>()
    ensures there { SwingIsThere K V S }
{}
