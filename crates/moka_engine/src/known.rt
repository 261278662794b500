//! Records that are known, and records that are named to leave.

use moka_hist::{Cause, Listing, Times};

/// What is known of a stored record: its key, the number of the call that wrote it, its times, and
/// whether an invalidation by a test hits it.
#[derive(Clone, PartialEq, Debug, Drop)]
pub struct Known<K> {
    pub key: K,
    pub stamp: u64,
    pub times: Times,
    pub hit: bool,
}

/// A record that is to leave, and why.
#[derive(Clone, PartialEq, Debug, Drop)]
pub struct Named<K> {
    pub key: K,
    pub stamp: u64,
    pub cause: Cause,
}

/// Records that are named to leave, in order.
pub type NamedList<K> = Listing<Named<K>>;
