//! What a call is for.

/// What a call does with its key, or with its segment.
#[derive(Clone, Copy, PartialEq, Eq, Debug)]
pub enum CallKind {
    /// Finds the node under the key.
    Get,
    /// Stores a node under the key.
    Insert,
    /// Removes the node under the key.
    Remove,
    /// Lists the nodes of the segment.
    Keys,
}
