//! A gateway between clients and an upstream: one upstream request a key, whatever the pieces in which
//! the clients' bytes come.
#![tactic(auto)]

mod fetches;
mod gateway;

pub use gateway::Gateway;
pub use moka_collapsing::{Out, OutList};
