//! Laws of steps over the words of a book: each can be made, whatever the book is by then.

ghost use Rattle.moka_history.specs.Moving.{AnnouncingMoves, ArrayAnnouncingMoves, CellAddingMoves, CellBringingMoves, ChangingMoves, CopyingMoves, LinkingMoves, LookMoves, SealingMoves, SwingingMoves};

/// A load of a word leaves the book. Its caller has seen the log so far, in which the word is the one
/// that it read.
pub fn look_moves<K, V, S>()
    ensures moves { LookMoves K V S }
{}

/// An exchange of the door for one more draws the next ticket, and names its pair; or it leaves the
/// book, where another ticket was drawn meanwhile.
pub fn announcing_moves<K, V, S>()
    ensures moves { AnnouncingMoves K V S }
{}

/// An exchange of a bucket by a call that fitted makes its change, and spends its ticket; or it
/// leaves the book, where the word is another one by now.
pub fn changing_moves<K, V, S>()
    ensures moves { ChangingMoves K V S }
{}

/// An exchange of the door for one more draws the next ticket for an array; or it leaves the book,
/// where another ticket was drawn meanwhile.
pub fn array_announcing_moves<K, V, S>()
    ensures moves { ArrayAnnouncingMoves K V S }
{}

/// An exchange that leaves the number of a word adds a cell to the row of an array, whatever the number
/// is by then.
pub fn cell_adding_moves<K, V, S>()
    ensures moves { CellAddingMoves K V S }
{}

/// An exchange that leaves the number of a word brings an added cell of an array's row home,
/// whatever the number is by then.
pub fn cell_bringing_moves<K, V, S>()
    ensures moves { CellBringingMoves K V S }
{}

/// An exchange of a bucket for the seal of its word makes it; or it leaves the book, where the word is
/// another one by now.
pub fn sealing_moves<K, V, S>()
    ensures moves { SealingMoves K V S }
{}

/// An exchange of the word for the array after another one links an array that was made for it, and
/// brings its ticket home; or it leaves the book, where another one was linked meanwhile.
pub fn linking_moves<K, V, S>()
    ensures moves { LinkingMoves K V S }
{}

/// An exchange of an unset word copies the one that the array's layout has there; or it leaves the
/// book, where the word is set by now.
pub fn copying_moves<K, V, S>()
    ensures moves { CopyingMoves K V S }
{}

/// An exchange of the word for a segment's root makes the array after it the root; or it leaves the book,
/// where the root is another one by now.
pub fn swinging_moves<K, V, S>()
    ensures moves { SwingingMoves K V S }
{}
