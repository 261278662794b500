//! What stands behind a cache that writes behind: keepers, which keep pairs of numbers and may fail,
//! and the list of the writes that a keeper has still to be sent.
#![tactic(auto)]

mod changes;
mod keeper;
mod map_keeper;
mod plain_keeper;
mod sending;
mod unsent;
mod write;

pub use keeper::Keeper;
pub use map_keeper::MapKeeper;
pub use plain_keeper::PlainKeeper;
pub use unsent::Unsent;
pub use write::Write;
