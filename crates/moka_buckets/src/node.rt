//! What a node holds.

use moka_hist::Stored;

/// A key, its hash, and the record stored under it. None of them ever changes.
#[derive(Drop)]
pub struct Node<K, V> {
    pub key: K,
    pub stored: Stored<V>,
    pub hash: u64,
}
