//! The table of buckets: a `Table` over segments of arrays that grow word by word.
//!
//! Each step of an operation makes one access to the words, the one that its `TableCall` wants.
//! Contracts see the memory of `moka_words`, the nodes by their numbers, and the map that they stand
//! for.
#![tactic(auto)]

mod array;
mod arrays;
mod bucket_call;
mod bucket_table;
mod building;
mod calling;
mod choosing;
mod compacting;
mod copying;
mod finding;
mod key_op;
mod keys_call;
mod linking;
mod list_call;
mod listing;
mod loading;
mod looking;
mod making;
mod node;
mod nodes;
mod op_call;
mod part;
mod part_keys;
mod putting;
mod stepping;
mod walking;
mod words;

pub use bucket_call::BucketCall;
pub use bucket_table::BucketTable;
pub use key_op::KeyOp;
pub use keys_call::KeysCall;
pub use list_call::ListCall;
pub use op_call::OpCall;
