//! Where a line may stand: rules first, each of which builds on earlier ones.
ghost use Rattle.std.specs.Prelude.{◌≡◌};
ghost use Rattle.moka_memo_run.specs.Lines.{Fits, line_words};
ghost use Rattle.moka_memo_run.specs.Places.{HasRead, next};

use crate::forms::line_of;
use crate::lines::Line;
use moka_lines::Grammar;
use std::alloc::{AllocError, Global};

/// The most rules that a source may have.
const MOST: u32 = 10_000;

/// The lines of the program, as far as they were read.
#[derive(Clone, Copy, PartialEq, Eq, Debug)]
pub enum Lines {
    /// So many rules, and nothing else.
    Rules { count: u32 },
    /// Some rules, and another line after them. No further rule may come.
    Begun,
}

impl Lines {
    /// What was read, with this line: None where it may not come.
    fn next(self, line: &Line) -> Option<Lines>
        ensures { result ≡ next self line.now }
    {
        let Line::Rule(rule) = line else {
            return Some(Lines::Begun);
        };
        let Lines::Rules { count } = self else {
            return None;
        };
        if count < MOST && rule.has_earlier_operands(count as usize) {
            Some(Lines::Rules { count: count + 1 })
        } else {
            None
        }
    }
}

impl Grammar<Line> for Lines {
    ghost spell = { line_words };

    ghost fits = { Fits };

    ghost has_read = { HasRead };

    fn read(&mut self, _alloc: Global, bytes: &[u8]) -> Result<Option<Line>, AllocError> {
        let Some(line) = line_of(bytes) else {
            return Ok(None);
        };
        let Some(next) = self.next(&line) else {
            return Ok(None);
        };
        *self = next;
        Ok(Some(line))
    }

    fn lines_are_spelled_apart() {}
}
