//! How a call ends.

use moka_hist::Listing;

/// The nodes of a segment, in the order of its buckets.
pub type NodeList = Listing<u64>;

/// How a call ended.
#[derive(Debug, Drop)]
pub enum Decision {
    /// The call changed nothing. This node is present under its key, or none.
    Kept { present: Option<u64> },
    /// The call made its change. This node was present under its key before, or none.
    Changed { present: Option<u64> },
    /// The call listed the nodes of the segment.
    Nodes(NodeList),
}
