//! What an insert answers.

/// What became of an insert.
#[derive(Drop)]
pub enum Insertion<V> {
    /// A bucket without a key took the pair.
    Inserted,
    /// The tombstone of this key took the pair.
    ReplacedTombstone,
    /// The key was present already.
    AlreadyPresent(V),
    /// The array has neither a bucket of this key nor one without a key. The value comes back.
    NoFree(V),
}
