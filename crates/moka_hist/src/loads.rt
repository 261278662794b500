//! What can be loaded: a key, by a kind of load.

use crate::Takes;

/// A kind of load. Loads of one key by different kinds don't wait for each other.
/// Source: moka's `value_initializer`, which tells kinds apart by a type's id.
#[derive(Clone, Copy, PartialEq, Eq, Hash, Debug)]
pub enum Kind {
    /// `get_with`: the initializer gives a value.
    GetWith,
    /// `optional`: the initializer gives a value, or that there is none.
    Optional,
    /// `try`: the initializer gives a value or an error.
    Try,
    /// A compute, of whichever start: it is told what to do with what the key has.
    Compute,
}

/// What an owner owns and others wait for: a key and a kind.
#[derive(Clone, PartialEq, Eq, Hash, Debug, Drop)]
pub struct Load<K> {
    pub key: K,
    pub kind: Kind,
}

/// What a call seeks: a load, and where it has one its replace test, by number. A record on which
/// that test holds is loaded again.
#[derive(Clone, PartialEq, Debug, Drop)]
pub struct Sought<K> {
    pub load: Load<K>,
    pub replace: Option<u64>,
}

/// A compute of a key, and which answers its ask takes.
#[derive(Clone, PartialEq, Debug, Drop)]
pub struct Compute<K> {
    pub key: K,
    pub takes: Takes,
}
