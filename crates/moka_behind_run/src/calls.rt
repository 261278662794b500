//! The calls of a source, and the lines that spell them.
ghost use Rattle.std.specs.Prelude.{◌≡◌};
ghost use Rattle.moka_behind_run.specs.Calls.{FitsAnywhere, call_line};
ghost use Rattle.moka_behind_run.specs.Reading.{alone, line_of, pair_of};

use moka_lines::{Grammar, after, cut, u32_in};
use std::alloc::{AllocError, Global};

/// A call of a cache before a keeper, as a line of the source spells it.
#[derive(Clone, Copy, PartialEq, Eq, Debug)]
pub enum Call {
    /// `set K V`: the key gets the value.
    Set { key: u32, value: u32 },
    /// `del K`: the key is taken out.
    Del { key: u32 },
    /// `get K`: the key is looked up.
    Get { key: u32 },
    /// `shed`: every stored record is taken out.
    Shed,
    /// `drain`: what is unsent is sent to the keeper.
    Drain,
}

/// A key and a value, with one space between them.
#[tactic(auto, unfolding(crate::specs::Reading::pair_of))]
#[inline(always)]
fn pair_of(bytes: &[u8]) -> Option<(u32, u32)>
    ensures { result ≡ pair_of bytes.now }
{
    let (key, value) = cut(bytes, b' ');
    let key = u32_in(key)?;
    let value = u32_in(value)?;
    Some((key, value))
}

/// A call that is a word alone.
#[tactic(auto, unfolding(crate::specs::Reading::alone))]
fn alone(bytes: &[u8]) -> Option<Call>
    ensures { result ≡ alone bytes.now }
{
    match bytes {
        b"shed" => Some(Call::Shed),
        b"drain" => Some(Call::Drain),
        _ => None,
    }
}

/// The call that a line spells, if it spells one.
fn line_of(line: &[u8]) -> Option<Call>
    ensures { result ≡ line_of line.now }
{
    if let Some(pair) = after(line, b"set ") {
        return pair_of(pair).map(|(key, value)| Call::Set { key, value });
    }
    if let Some(key) = after(line, b"get ") {
        return u32_in(key).map(|key| Call::Get { key });
    }
    if let Some(key) = after(line, b"del ") {
        return u32_in(key).map(|key| Call::Del { key });
    }
    alone(line)
}

/// The lines of the program: each call may come after any others.
#[derive(Drop)]
pub struct Calls;

impl Grammar<Call> for Calls {
    ghost spell = { call_line };

    ghost fits = { FitsAnywhere };

    ghost has_read = { λ calls before. Unit {0} };

    fn read(&mut self, _alloc: Global, bytes: &[u8]) -> Result<Option<Call>, AllocError> {
        Ok(line_of(bytes))
    }

    fn lines_are_spelled_apart() {}
}
