//! A list of stored pairs.

use moka_hist::{Listing, Stored};

/// Stored pairs, each a key with its record.
pub type EntryList<K, V> = Listing<(K, Stored<V>)>;
