//! An operation on one key.

use moka_hist::Stored;

/// An operation on the pair of one key: what `TableOp` has beside the list of a part.
#[derive(Drop)]
pub enum KeyOp<K, V> {
    /// Answers the pair that is there.
    Get { key: K },
    /// Stores the record, in the place of another if one is there.
    InsertOrModify { key: K, stored: Stored<V> },
    /// Stores the record where the key is absent.
    InsertIfAbsent { key: K, stored: Stored<V> },
    /// Takes the pair out, where its record has this stamp; whatever its stamp, where that is None.
    RemoveIf { key: K, stamp: Option<u64> },
}
