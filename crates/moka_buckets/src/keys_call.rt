//! A call that lists the keys of a segment.

use moka_calls::TableCall;

/// A call that lists the keys of a segment, and how far it is.
#[derive(Drop)]
pub struct KeysCall {
    pub(crate) segment: usize,
    pub(crate) table: TableCall,
}
