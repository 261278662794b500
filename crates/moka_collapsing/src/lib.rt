//! Requests of many clients that share upstream requests: the reference gateway, and the parts of a
//! gateway that need no cache.
//!
//! `specs/Reference` is the reference gateway. `specs/Standing` says how the requests that wait stand
//! on the calls of a cache. Each law is the contract of a function that does nothing; to call it is to
//! cite the law.
#![tactic(auto)]

mod answer;
mod client;
mod laws;
mod out;
mod slot;
mod standing;
mod waits;

pub use answer::Answer;
pub use client::Client;
pub use laws::{
    closes_are_lawful, feeds_are_lawful, pieces_make_no_difference, replies_are_lawful,
    replies_go_in_order, runs_are_served, upstream_requests_are_shared,
};
pub use out::{Out, OutList};
pub use slot::{Asked, Given, Place, Slot};
pub use standing::{lists_are_answered, requests_come, requests_leave};
pub use waits::WaitList;
