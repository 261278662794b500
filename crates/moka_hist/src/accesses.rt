//! What a call wants next, what it gets, and what its step replies.

ghost use Rattle.std.specs.Prelude.{◌≡◌, ◌↔◌, IsTrue};

use crate::{Answer, Ask, Found, TableOp, TableTurn, Visit};

/// The one access of a step: a table operation's first step, a further step of it, or a visit.
#[derive(Drop)]
pub enum Want<K, V, E> {
    Begin(TableOp<K, V>),
    Table,
    Desk(Visit<K, V, E>),
}

/// What an access gave.
#[derive(Drop)]
pub enum Got<K, V, E> {
    Table(TableTurn<K, V>),
    Desk(Found<V, E>),
}

/// How a step leaves its call: it goes on, it waits for something missing, it asks, it has answered,
/// or, of a walk, it gives a record.
#[derive(Drop)]
pub enum Turn<K, V, E> {
    Going,
    Wait,
    Ask(Ask<K, V>),
    Answer(Answer<K, V, E>),
    Item(K, V),
}

impl<K, V, E> Turn<K, V, E> {
    /// Whether the call goes on by itself.
    pub fn is_going(&self) -> bool
        ensures { IsTrue result ↔ (self.now ≡ Turn.Going) }
    {
        match self {
            Turn::Going => true,
            Turn::Wait => false,
            Turn::Ask(_) => false,
            Turn::Answer(_) => false,
            Turn::Item(_, _) => false,
        }
    }
}
