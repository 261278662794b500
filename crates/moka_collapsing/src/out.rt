//! What the owner of a gateway is to do.

use bytes::Bytes;
use moka_hist::Listing;

/// What the owner of a gateway is to do.
#[derive(PartialEq, Eq, Debug, Drop)]
pub enum Out {
    /// Begin the upstream request of this key, and give what it brings to `Gateway::reply`.
    Fetch(u32),
    /// Give the upstream request of this key up: nobody waits for it any more.
    Cancel(u32),
    /// Send these bytes to the client of this number, after all that it was sent before.
    To { client: u64, bytes: Bytes },
}

/// What one call of a gateway is to have done: first the fetches, in the order in which they came
/// about, and the cancels, by ascending key; then one `To` for each client with new bytes, by
/// ascending number. `as_slice`, `iter`, `get`, `len` and `into_vec` read it.
pub type OutList = Listing<Out>;
