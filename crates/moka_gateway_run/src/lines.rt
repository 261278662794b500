//! The lines of a source.

use crate::pieces::Piece;

/// A line of the source: what happens to the gateway.
#[derive(Drop)]
pub enum Line {
    /// `open`: a client opens.
    Open,
    /// `feed C T`: a client has sent these bytes.
    Feed { client: u64, bytes: Piece },
    /// `reply K value V`, `reply K error E`: the upstream request of a key is answered.
    Reply { key: u32, answer: Result<u32, u32> },
    /// `close C`: a client closes.
    Close { client: u64 },
}
