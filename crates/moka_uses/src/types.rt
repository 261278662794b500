//! Which types can be keys and values.
ghost use Rattle.std.proofs.Common.{rules};

use crate::Shared;
use bytes::{ByteStr, Bytes};
use moka_values::Exact;

/// A request's name and the number of its tries: a struct of parts that can be keys.
#[derive(Clone, PartialEq, Eq, Hash, Debug, Drop)]
pub struct Request {
    pub name: ByteStr,
    pub tries: u32,
}

impl Exact for Request {
    ghost exact = { Prim.search rules };
}

/// A page, or where it has moved: an enum of parts that can be values.
#[derive(Clone, Debug, Drop)]
pub enum Page {
    Body(Bytes),
    MovedTo(ByteStr),
    Gone,
}

impl Exact for Page {
    ghost exact = { Prim.search rules };
}

/// What `run` asks of keys, of values and of errors: a clone equals its original, as contracts see
/// the two.
pub fn is_taken<T: Exact>() {}

/// Each of these can be a value or an error, and each but the shared ones and `Page` a key, since
/// they have equality and hash.
///
/// `String`, `Vec<u8>`, `Box<T>` and `Arc<T>` can't: a contract sees more of them than what they
/// hold, as the room of a `String`, and a clone needn't have the same. `ByteStr`, `Bytes` and
/// `Shared<T>` stand for them.
pub fn taken_types() {
    is_taken::<u16>();
    is_taken::<u32>();
    is_taken::<i64>();
    is_taken::<bool>();
    is_taken::<char>();
    is_taken::<[u8; 4]>();
    is_taken::<&'static str>();
    is_taken::<ByteStr>();
    is_taken::<Bytes>();
    is_taken::<(ByteStr, u32)>();
    is_taken::<Option<ByteStr>>();
    is_taken::<Request>();
    is_taken::<Page>();
    is_taken::<Shared<u64>>();
    is_taken::<Shared<String>>();
    is_taken::<Shared<Vec<u8>>>();
}
