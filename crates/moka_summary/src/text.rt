//! The text of a summary.

ghost use Rattle.std.specs.Prelude.{◌≡◌, ◌++◌, IfOk, OnOk, codes};
ghost use Rattle.moka_summary.specs.SummaryText.{line, summary_text};

use crate::{Summary, Tally};
use moka_lines::push_line;
use std::alloc::{AllocError, Global};

/// Writes the text of a summary: twelve lines, each a word, a blank and a number.
pub fn write_summary(alloc: Global, summary: &Summary) -> Result<Vec<u8>, AllocError>
    ensures { IfOk result (λ text. text.items ≡ summary_text summary.now) }
{
    let mut text = Vec::new(alloc);
    push_line(&mut text, "turns ", summary.turns)?;
    push_replies(&mut text, &summary.replies)?;
    push_line(&mut text, "entries ", summary.entries)?;
    push_line(&mut text, "owed ", summary.owed)?;
    push_line(&mut text, "logged ", summary.logged)?;
    push_line(&mut text, "applied ", summary.applied)?;
    push_line(&mut text, "notices ", summary.notices)?;
    Ok(text)
}

/// Appends the lines of the replies.
fn push_replies(text: &mut Vec<u8>, replies: &Tally) -> Result<(), AllocError>
    ensures { OnOk result (text.new.items ≡ text.old.items
        ++ line (codes "events ") replies.now.events
        ++ line (codes "calls ") replies.now.calls
        ++ line (codes "answers ") replies.now.answers
        ++ line (codes "asks ") replies.now.asks
        ++ line (codes "waits ") replies.now.waits
        ++ line (codes "refused ") replies.now.refused) }
{
    push_line(text, "events ", replies.events)?;
    push_line(text, "calls ", replies.calls)?;
    push_line(text, "answers ", replies.answers)?;
    push_line(text, "asks ", replies.asks)?;
    push_line(text, "waits ", replies.waits)?;
    push_line(text, "refused ", replies.refused)
}
