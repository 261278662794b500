//! One change of a table.

/// What a history has of one change: the key, the value that was put, or None where the pair was
/// taken out, and the pair that stood there before; the ticket that its maker spent on it, and the
/// one that the maker has from then on. The code keeps no list of them.
pub struct Change<K, V> {
    pub key: K,
    pub put: Option<V>,
    pub before: Option<(K, V)>,
    pub spent: u64,
    pub next: u64,
}
