//! The operations of a table, and what they answer.

ghost use Rattle.std.specs.Prelude.{◌≡◌, ◌↔◌, IsTrue};

use crate::{KeyList, Stored};

/// An operation on the table's map.
#[derive(Drop)]
pub enum TableOp<K, V> {
    Get { key: K },
    InsertOrModify { key: K, stored: Stored<V> },
    /// Stores the record, where the key is absent.
    InsertIfAbsent { key: K, stored: Stored<V> },
    /// Takes the pair out, where its record has this stamp; whatever its stamp, where that is None.
    RemoveIf { key: K, stamp: Option<u64> },
    /// Lists the keys of a part of the table, by its number from 0.
    Keys { part: usize },
}

/// What the map has at the key, or had before the change; of a removal what it took out. Of a part its
/// keys, in an order of the table's.
#[derive(Drop)]
pub enum TableAnswer<K, V> {
    None,
    Some { key: K, stored: Stored<V> },
    Keys(KeyList<K>),
}

/// What one step of an operation gives: nothing yet, or its answer.
#[derive(Drop)]
pub enum TableTurn<K, V> {
    Going,
    Decided(TableAnswer<K, V>),
}

impl<K, V> TableTurn<K, V> {
    /// Whether the operation is still undecided.
    pub fn is_going(&self) -> bool
        ensures { IsTrue result ↔ (self.now ≡ TableTurn.Going) }
    {
        match self {
            TableTurn::Going => true,
            TableTurn::Decided(_) => false,
        }
    }
}
