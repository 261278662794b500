//! Laws of what each access keeps of a segment.

ghost use Rattle.moka_growth.specs.Laws.{AccessIsLater, AccessKeepsSound, ElsewhereKeepsSound, UnsealedIsRoots};

/// A segment stays sound, whichever access a fitting call makes.
pub fn access_keeps_sound()
    ensures sound { AccessKeepsSound }
{}

/// Each access of a fitting call leaves a later memory: each array stands where it stood, with
/// later words, and an array that has been root stays one that has been root.
pub fn access_is_later()
    ensures later { AccessIsLater }
{}

/// A segment stays sound, with its map and a later memory, while a call makes an access to another
/// segment.
pub fn elsewhere_keeps_sound()
    ensures sound { ElsewhereKeepsSound }
{}

/// A word that is not sealed, in an array that has been root, is one of the root. So a probe
/// decides in the root alone.
pub fn unsealed_is_roots()
    ensures root { UnsealedIsRoots }
{}
