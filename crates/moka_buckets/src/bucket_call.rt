//! An operation under way.

use crate::key_op::KeyOp;
use moka_calls::TableCall;

/// An operation, the hash of its key, how far its call is, and the node that was made for the pair
/// to be stored.
#[derive(Drop)]
pub struct BucketCall<K, V> {
    pub(crate) operation: KeyOp<K, V>,
    pub(crate) hash: u64,
    pub(crate) table: TableCall,
    pub(crate) node: Option<u64>,
}
