//! A call that lists the keys of a part, under way.

use crate::keys_call::KeysCall;

/// A call that lists the keys of a part, and clones of the keys that it has listed so far.
#[derive(Drop)]
pub struct ListCall<K> {
    pub(crate) call: KeysCall,
    pub(crate) keys: Vec<K>,
}
