//! What a line spells.
ghost use Rattle.std.specs.Prelude.{◌≡◌, bytes_eq, codes, IfOk};
ghost use Rattle.moka_gateway_run.specs.Forms.{answer_of, feed_of, line_of, reply_of};
ghost use Rattle.moka_gateway_run.specs.Lines.{FitsAnywhere, line_words};

use crate::lines::Line;
use crate::pieces::piece_in;
use moka_lines::{Grammar, after, cut, u32_in, u64_in};
use std::alloc::{AllocError, Global};

/// A client, and after a space its piece.
#[tactic(auto, unfolding(crate::specs::Forms::feed_of))]
fn feed_of(alloc: Global, bytes: &[u8]) -> Result<Option<Line>, AllocError>
    ensures { IfOk result (λ line. line ≡ feed_of bytes.now) }
{
    let (client, text) = cut(bytes, b' ');
    let Some(client) = u64_in(client) else {
        return Ok(None);
    };
    Ok(piece_in(alloc, text)?.map(|bytes| Line::Feed { client, bytes }))
}

/// What the upstream answers.
#[tactic(auto, unfolding(crate::specs::Forms::answer_of))]
fn answer_of(bytes: &[u8]) -> Option<Result<u32, u32>>
    ensures { result ≡ answer_of bytes.now }
{
    if let Some(value) = after(bytes, b"value ") {
        return u32_in(value).map(Ok);
    }
    if let Some(error) = after(bytes, b"error ") {
        return u32_in(error).map(Err);
    }
    None
}

/// A key, and after a space what the upstream answers.
#[tactic(auto, unfolding(crate::specs::Forms::reply_of))]
fn reply_of(bytes: &[u8]) -> Option<Line>
    ensures { result ≡ reply_of bytes.now }
{
    let (key, answer) = cut(bytes, b' ');
    let key = u32_in(key)?;
    let answer = answer_of(answer)?;
    Some(Line::Reply { key, answer })
}

/// Whether the line is this word. It is compared whole.
fn is_open(bytes: &[u8]) -> bool
    ensures { result ≡ bytes_eq bytes.now (codes "open") }
{
    bytes == b"open".as_slice()
}

/// The line that these bytes spell, if they spell one.
#[tactic(auto, unfolding(crate::specs::Forms::line_of))]
fn line_of(alloc: Global, bytes: &[u8]) -> Result<Option<Line>, AllocError>
    ensures { IfOk result (λ line. line ≡ line_of bytes.now) }
{
    if let Some(feed) = after(bytes, b"feed ") {
        return feed_of(alloc, feed);
    }
    if let Some(reply) = after(bytes, b"reply ") {
        return Ok(reply_of(reply));
    }
    if let Some(client) = after(bytes, b"close ") {
        return Ok(u64_in(client).map(|client| Line::Close { client }));
    }
    if is_open(bytes) {
        return Ok(Some(Line::Open));
    }
    Ok(None)
}

/// The lines of the program: each may come after any others.
#[derive(Drop)]
pub struct Lines;

impl Grammar<Line> for Lines {
    ghost spell = { line_words };

    ghost fits = { FitsAnywhere };

    ghost has_read = { λ lines before. Unit {0} };

    fn read(&mut self, alloc: Global, bytes: &[u8]) -> Result<Option<Line>, AllocError> {
        line_of(alloc, bytes)
    }

    fn lines_are_spelled_apart() {}
}
