//! Tickets of a caller.
ghost use Rattle.std.specs.Prelude.{◌≡◌, ◌∷◌};

use boxcar::tag::{Names, Tag};

// A ticket, before those that the caller has.
#[derive(Drop)]
struct Added {
    ticket: u64,
    before: Tag,
}

struct First;

impl Names<Added> for First {
    ghost use Rattle.std.specs.Prelude.{◌∷◌};

    ghost numbers = { λ x. x.ticket ∷ x.before.numbers };
}

struct Same;

impl Names<Tag> for Same {
    ghost numbers = { λ tag. tag.numbers };
}

/// The caller's tickets, and one more.
pub(crate) fn with_ticket(ticket: u64, tickets: &Tag) -> Tag
    ensures { result.numbers ≡ ticket ∷ tickets.now.numbers }
{
    let before = Tag::of::<Tag, Same>(tickets);
    Tag::of::<Added, First>(&Added { ticket, before })
}
