//! Calls of the cache beside the timers and sockets of `tokio`.
#![tactic(auto)]

mod page;
mod running;
#[cfg(test)]
mod timed;

pub use page::{Pages, page_within};
pub use running::{beside, within};
