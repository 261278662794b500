//! Laws of segments that begin, and of their count of keys.

ghost use Rattle.moka_growth.specs.Laws.{CountStays, EmptyIsRoot, LaidIsRoot, NoneIsSound, OneIsSound};

/// A segment without arrays is sound.
pub fn none_is_sound()
    ensures sound { NoneIsSound }
{}

/// A segment with a root alone is sound, if the root is as long as a power of two.
pub fn one_is_sound()
    ensures sound { OneIsSound }
{}

/// An array of empty words can be a root.
pub fn empty_is_root()
    ensures root { EmptyIsRoot }
{}

/// An array in which the present nodes of a segment are laid out can be a root, if it has as many
/// words, and stores just these nodes.
pub fn laid_is_root()
    ensures root { LaidIsRoot }
{}

/// The count of keys stays right, if each access recounts as it exchanges.
pub fn count_stays()
    ensures counted { CountStays }
{}
