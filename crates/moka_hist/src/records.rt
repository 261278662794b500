//! What is stored under a key, and how far a call is.

/// A stored value, the number of the call that wrote it, and the moment of that write, in
/// nanoseconds.
#[derive(Clone, PartialEq, Debug, Drop)]
pub struct Stored<V> {
    pub value: V,
    pub stamp: u64,
    pub modified: u64,
}

/// How far a live call is: it has made no step; its last reply was Going; it was Wait or Ask.
#[derive(Clone, Copy, PartialEq, Eq, Debug)]
pub enum Mode {
    Fresh,
    Mid,
    Parked,
}
