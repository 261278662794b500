//! The lines that a program takes.
ghost use Rattle.std.specs.Prelude.{◌≡◌, ◌∷◌, ◌++◌, [], ℕ, List, IfNone, IfOk, IfSome};
ghost use Rattle.moka_lines.specs.Lines.{AreSpelledApart, SpellsNone};

use std::alloc::{AllocError, Global};

/// Reads lines, one after the other. Each has one spelling, and the lines before it decide whether
/// it may come.
pub trait Grammar<L>: Drop {
    /// The one spelling of a line, without its end.
    ghost spell: { L → List ℕ };

    /// Holds of a line that may come after these.
    ghost fits: { List L → L → Type 0 };

    /// Holds of the states in which it has read these lines.
    ghost has_read: { Self → List L → Type 0 };

    /// Reads the next line: the one that the bytes spell, where it may come now. None where they
    /// spell no such line; after that, and after want of memory, no further line is read.
    fn read(&mut self, alloc: Global, bytes: &[u8]) -> Result<Option<L>, AllocError>
        ensures spelled { IfOk result (λ read. IfSome read (λ line. bytes.now ≡ spell line)) }
        ensures fits { IfOk result (λ read. IfSome read (λ line. (before : List L)
            → has_read self.old before → fits before line)) }
        ensures goes_on { IfOk result (λ read. IfSome read (λ line. (before : List L)
            → has_read self.old before → has_read self.new (before ++ line ∷ []))) }
        ensures none { IfOk result (λ read. IfNone read ((before : List L)
            → has_read self.old before → SpellsNone spell fits before bytes.now)) };

    /// No two lines that may come at a place have one spelling.
    fn lines_are_spelled_apart()
        ensures { AreSpelledApart spell fits };
}
