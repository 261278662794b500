//! What one caller has of its own.
ghost use Rattle.std.specs.Prelude.{◌≡◌, []};
ghost use Rattle.logbook.specs.Pages.{may_write};
ghost use Rattle.moka_parts.specs.Changes.{IsUnspent};
ghost use Rattle.moka_parts.specs.Hands.{made};
ghost use Rattle.moka_parts.specs.Logs.{changes_in};

use crate::Note;
use crate::book::{Law, Naming};
use crate::front::Front;
use logbook::{Pen, Word};
use std::hash::{BuildHasher, Hash};
use std::marker::Model;

/// A caller's first ticket, its ticket for the next change, which nobody else can spend, and what it
/// had seen once it had made its last change. Contracts see both tickets, and the changes that the
/// caller has made.
#[derive(Drop)]
pub(crate) struct Own<K: Eq + Hash, V, S: BuildHasher, J: Naming> {
    pub(crate) first: Word<Note<K, V, S>, u64, Law>,
    pub(crate) ticket: Pen,
    pub(crate) last: Front<K, V, S, J>,
}

impl<K: Eq + Hash, V, S: BuildHasher, J: Naming> Model for Own<K, V, S, J> {
    ghost use Rattle.std.specs.Prelude.{◌≡◌};
    ghost use Rattle.logbook.specs.Pages.{may_write};
    ghost use Rattle.moka_parts.specs.Changes.{made_with, ticket_after};
    ghost use Rattle.moka_parts.specs.Hands.{Hand};
    ghost use Rattle.moka_parts.specs.Logs.{changes_in};

    ghost Value = { Hand K V };

    ghost view = { λ o. (
      o.first.key,
      (
        o.ticket.nib.key,
        made_with o.first.key
            (changes_in o.last),
      ),
    ) };

    ghost invariant = { λ o. (o.ticket.book ≡ J.book) × (o.ticket.nib.right ≡ may_write)
        × (ticket_after o.first.key (changes_in o.last) ≡ o.ticket.nib.key) };
}

impl<K: Eq + Hash, V, S: BuildHasher, J: Naming> Own<K, V, S, J> {
    /// A caller that has made no change, with a ticket that nobody has spent.
    pub(crate) fn new(
        first: Word<Note<K, V, S>, u64, Law>,
        ticket: Pen,
        last: Front<K, V, S, J>,
    ) -> Self
        requires named { first.key ≡ ticket.nib.key }
        requires ticket { (ticket.book ≡ J.book) × (ticket.nib.right ≡ may_write) }
        requires unspent { IsUnspent ticket.nib.key (changes_in last) }
        ensures { made result ≡ [] }
    {
        Own {
            first,
            ticket,
            last,
        }
    }
}
