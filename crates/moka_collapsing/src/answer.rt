//! The answer to a request.

ghost use Rattle.std.specs.Prelude.{◌≡◌, ◌∷◌, ◌++◌, [], decimal, OnOk};
ghost use Rattle.std.specs.String.{string_bytes};
ghost use Rattle.moka_collapsing.specs.Texts.{reply_text};

use itoa::Buffer;
use std::alloc::AllocError;

/// The answer to a request of a client. Its reply is the text of it, and the byte 10.
#[derive(Clone, Copy, PartialEq, Eq, Debug)]
pub enum Answer {
    /// The value that is stored under the key: `value V`.
    Value(u32),
    /// The error with which the upstream request of the key ended: `error E`.
    Error(u32),
    /// The line was not a request: `bad`.
    Bad,
}

/// Writes the reply to a request that was answered so.
pub(crate) fn write_reply(text: &mut String, answer: Answer) -> Result<(), AllocError>
    ensures { OnOk result (string_bytes text.new ≡ string_bytes text.old ++ reply_text answer) }
{
    match answer {
        Answer::Value(value) => write_line(text, "value ", value),
        Answer::Error(error) => write_line(text, "error ", error),
        Answer::Bad => text.push_str("bad\n"),
    }
}

// Writes a line of a word and a number.
fn write_line(text: &mut String, word: &str, number: u32) -> Result<(), AllocError>
    ensures { OnOk result (string_bytes text.new
        ≡ string_bytes text.old ++ word.now ++ decimal number ++ 10 ∷ []) }
{
    text.push_str(word)?;
    let mut buffer = Buffer::new();
    text.push_str(buffer.format(number))?;
    text.push_str("\n")
}
