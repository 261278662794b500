//! The text of what a gateway does.
ghost use Rattle.std.specs.Prelude.{◌≡◌, ◌++◌, OnOk};
ghost use Rattle.moka_gateway_run.specs.Replies.{cancel_line, client_line, fetch_line, to_line};

use crate::pieces::push_piece;
use moka_lines::{push_line, push_number, push_words};
use std::alloc::AllocError;

/// Appends the reply to an `open`: the client's number, or that it is refused.
pub fn push_client(text: &mut Vec<u8>, client: Option<u64>) -> Result<(), AllocError>
    ensures { OnOk result (text.new.items ≡ text.old.items ++ client_line client) }
{
    match client {
        Some(client) => push_line(text, "client ", client),
        None => push_words(text, "refused\n"),
    }
}

/// Appends that a request for the key goes upstream.
pub fn push_fetch(text: &mut Vec<u8>, key: u32) -> Result<(), AllocError>
    ensures { OnOk result (text.new.items ≡ text.old.items ++ fetch_line key) }
{
    push_line(text, "up fetch ", u64::from(key))
}

/// Appends that the upstream request of the key is cancelled.
pub fn push_cancel(text: &mut Vec<u8>, key: u32) -> Result<(), AllocError>
    ensures { OnOk result (text.new.items ≡ text.old.items ++ cancel_line key) }
{
    push_line(text, "up cancel ", u64::from(key))
}

/// Appends that the client is sent these bytes.
pub fn push_to(text: &mut Vec<u8>, client: u64, bytes: &[u8]) -> Result<(), AllocError>
    ensures { OnOk result (text.new.items ≡ text.old.items ++ to_line client bytes.now) }
{
    push_words(text, "to ")?;
    push_number(text, client)?;
    push_words(text, " ")?;
    push_piece(text, bytes)?;
    push_words(text, "\n")
}
