//! What a bucket of an array holds.

/// The word of a bucket. A number is that of a node, which names a key, the hash under which it was
/// filled, and a value; none of them ever changes.
#[derive(Clone, Copy, PartialEq, Eq, Debug)]
pub enum Word {
    /// Of an array that is being filled: nobody has said yet what stands here.
    Unset,
    /// No key.
    Empty,
    /// The key of the node, and its value.
    Live(u64),
    /// A tombstone: the bucket is the key's still, but the key is absent.
    Tomb(u64),
    /// No key, for good: the array is left for a new one.
    SealedEmpty,
    /// The key of the node and its value, for good.
    SealedLive(u64),
    /// A tombstone, for good.
    SealedTomb(u64),
}
