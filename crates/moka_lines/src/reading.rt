//! Reading the lines of a text.
ghost use Rattle.std.specs.Prelude.{◌≡◌, ◌<◌, ℕ, [], length, IfOk, IsErrOf};
ghost use Rattle.moka_lines.specs.Lines.{AreReadOneWay, IsFirstBad, Says};
ghost use Rattle.moka_lines.specs.declared.reading.LineError.TheVariants.{Memory};

use crate::grammar::Grammar;
use crate::words::cut_line;
use std::alloc::{AllocError, AllocFailed, Global};

/// Why the lines of a text could not be read.
#[derive(Clone, Copy, PartialEq, Eq, Debug)]
pub enum LineError {
    /// The first line that is not in the grammar, numbered from 1.
    BadLine { line: u64 },
    /// Memory ran out.
    Memory,
}

impl From<AllocError> for LineError {
    ghost from_gives = { λ _ e. e ≡ Memory };

    fn from(_e: AllocError) -> LineError {
        LineError::Memory
    }
}

impl<T: Drop> From<AllocFailed<T>> for LineError {
    ghost from_gives = { λ _ e. e ≡ Memory };

    fn from(_e: AllocFailed<T>) -> LineError {
        LineError::Memory
    }
}

/// Reads the lines of a text, by a grammar that has read none.
///
/// Answers `BadLine` with the first line that is not in the grammar, and `Memory` where memory runs
/// out: never of an empty text.
pub fn read_lines<L: Drop, G: Grammar<L>>(
    alloc: Global,
    grammar: G,
    text: &[u8],
) -> Result<Vec<L>, LineError>
    requires { G.has_read grammar [] }
    ensures said { IfOk result (λ said. Says G.spell G.fits text.now said.items) }
    ensures bad_line { (line : ℕ) → IsErrOf result (LineError.BadLine line)
        → IsFirstBad G.spell G.fits text.now line }
    ensures memory { IsErrOf result LineError.Memory → 0 < length text.now }
{
    let mut grammar = grammar;
    let mut said = Vec::new(alloc);
    let mut number: u64 = 1;
    let mut rest = text;
    while !rest.is_empty() {
        let (bytes, later) = cut_line(rest);
        let Some(line) = grammar.read(alloc, bytes)? else {
            return Err(LineError::BadLine { line: number });
        };
        said.push(line)?;
        number += 1;
        rest = later;
    }
    Ok(said)
}

/// What a text says is determined: no text says two things, or says something and has a bad line.
pub fn texts_are_read_one_way<L, G: Grammar<L>>()
    ensures { AreReadOneWay G.spell G.fits }
{
    G::lines_are_spelled_apart();
}
