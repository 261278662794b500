//! A list of keys.

use crate::Listing;

/// Keys, or what was made of them, in an order of its maker's.
pub type KeyList<T> = Listing<T>;
