//! A call of the table's trait.

use crate::bucket_call::BucketCall;
use crate::list_call::ListCall;

/// A call to a table: an operation on one key, or a list of the keys of a part.
#[derive(Drop)]
pub enum OpCall<K, V> {
    Key(BucketCall<K, V>),
    Keys(ListCall<K>),
}
