//! Callers of the cache: which types can be its keys and values, and runs on a cache of such types,
//! each proved as a user's own caller would be.
#![tactic(auto)]

mod callers;
mod reading;
mod replacing;
mod types;

pub use callers::{read_back_shared, read_back_text};
pub use moka_values::Shared;
pub use reading::{NoTests, read_back};
pub use replacing::read_replaced;
pub use types::{Page, Request, is_taken, taken_types};
