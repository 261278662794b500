//! A hash table of buckets in arrays, after moka's `cht`: one array, probed in a line.
//!
//! Contracts speak of an array by its words and nodes, and by two finite maps that follow from them
//! (`specs/Buckets`): the pair that is stored under a key, and the hash under which its bucket was
//! filled. Where probes go, and what lasts of words, is said in `moka_words`.
#![tactic(auto)]

mod bucket_array;
mod insertion;
mod keys;
mod look;
mod node;
mod probe;
mod store;

pub use bucket_array::BucketArray;
pub use insertion::Insertion;
pub use moka_hist::KeyList;
pub use moka_words::{Access, Choice, RehashOp, Seen, Word};
