//! What answers the lines of a program.
ghost use Rattle.std.specs.Prelude.{ℕ, [], List, IfOk};
ghost use Rattle.moka_lines.specs.Lines.{AreInPlace};

use crate::grammar::Grammar;
use std::alloc::{AllocError, Global};

/// Answers lines by a text. The program is handed something besides, which the answer may change:
/// `()` where there is nothing.
pub trait LineProgram<L, C>: Grammar<L> {
    /// Holds of what is handed, lines, the text that answers them, and what is handed afterwards.
    ghost answers: { C → List L → List ℕ → C → Type 0 };

    /// The text that answers no lines. It changes nothing, and takes no memory.
    fn of_nothing() -> &'static str
        ensures { (over : C) → answers over [] result.now over };

    /// Answers lines, each of which may come after those before it. The text is made whole.
    fn answer(alloc: Global, lines: Vec<L>, over: &mut C) -> Result<Vec<u8>, AllocError>
        requires { AreInPlace Self.fits [] lines.items }
        ensures { IfOk result (λ text. answers over.old lines.items text.items over.new) };
}
