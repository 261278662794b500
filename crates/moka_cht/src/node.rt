//! What a node holds.

/// A node, which words name by its number: a key, the hash under which it was stored, and its
/// value.
#[derive(Drop)]
pub enum Node<K, V> {
    /// The node is free: no word names it.
    Unused,
    /// A stored pair.
    Pair { hash: u64, key: K, value: V },
    /// A key whose pair was removed. Its bucket is a tombstone.
    Removed { hash: u64, key: K },
}
