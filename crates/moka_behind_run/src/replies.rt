//! The replies to calls, and their text.
ghost use Rattle.std.specs.Prelude.{◌≡◌, ◌++◌, OnOk};
ghost use Rattle.moka_behind_run.specs.Replies.{reply_line, unsent_line};

use moka_lines::{push_line, push_words};
use std::alloc::AllocError;

/// What a call replies.
#[derive(Clone, Copy, PartialEq, Eq, Debug)]
pub enum Reply {
    /// A write was taken.
    Done,
    /// What a look found.
    Found(Option<u32>),
    /// The keeper failed.
    Fault,
    /// So many records were taken out.
    Shed(u64),
    /// So many writes were sent.
    Drained(u64),
}

/// Appends the line of what a look found.
fn push_found(text: &mut Vec<u8>, found: Option<u32>) -> Result<(), AllocError>
    ensures { OnOk result (text.new.items
        ≡ text.old.items ++ reply_line (Reply.Found found)) }
{
    match found {
        Some(value) => push_line(text, "some ", u64::from(value)),
        None => push_words(text, "none\n"),
    }
}

/// Appends the line of a reply.
pub fn push_reply(text: &mut Vec<u8>, reply: Reply) -> Result<(), AllocError>
    ensures { OnOk result (text.new.items ≡ text.old.items ++ reply_line reply) }
{
    match reply {
        Reply::Done => push_words(text, "done\n"),
        Reply::Found(found) => push_found(text, found),
        Reply::Fault => push_words(text, "fault\n"),
        Reply::Shed(count) => push_line(text, "shed ", count),
        Reply::Drained(count) => push_line(text, "drained ", count),
    }
}

/// Appends the last line: how many writes are unsent.
pub fn push_unsent(text: &mut Vec<u8>, count: u64) -> Result<(), AllocError>
    ensures { OnOk result (text.new.items ≡ text.old.items ++ unsent_line count) }
{
    push_line(text, "unsent ", count)
}
