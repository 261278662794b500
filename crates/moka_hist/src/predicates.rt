//! Predicates that hide records.

use crate::Listing;

/// A predicate that is registered: its id, the number of its test, and the moment at which it was
/// registered, in nanoseconds. It hides no record that is written later.
#[derive(Clone, Copy, PartialEq, Eq, Debug)]
pub struct Registered {
    pub id: u128,
    pub test: u64,
    pub moment: u64,
}

/// Why a predicate was not registered.
#[derive(Clone, Copy, PartialEq, Eq, Debug)]
pub enum PredicateError {
    /// The cache was built without invalidation closures.
    InvalidationClosuresDisabled,
    /// Each of the next 1000 ids was registered already.
    NoId,
    /// Memory was wanting.
    Memory,
}

/// Predicates, by id and the moment at which each was registered.
pub type IdList = Listing<(u128, u64)>;

/// The number of each registered test, with the moment at which it was registered; oldest first.
pub type TestList = Listing<(u64, u64)>;
