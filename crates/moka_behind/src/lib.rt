//! A cache before a keeper that may fail: writes go into the cache and into a list of unsent writes,
//! and a drain sends these to the keeper.
//!
//! A write is lost if the process ends before a drain has sent it.
#![tactic(auto)]

mod behind;
mod behind_error;
mod laws;
mod pairs;
mod shedding;

pub use behind::Behind;
pub use behind_error::BehindError;
pub use laws::truth_is_of_the_last_write;
pub use moka_ends::Failed;
pub use moka_keepers::{Keeper, MapKeeper, PlainKeeper, Write};
