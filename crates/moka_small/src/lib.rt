//! The small state of a cache whose calls are polled whole: what each poll replies, as a function.
//!
//! Each law is the contract of a function that does nothing. To call it is to cite the law.
#![tactic(auto)]

mod events;
mod given;
mod outcome;
mod polls;
mod stands;

pub use events::{drop_is_gone, fresh_is_empty, start_is_started, tell_is_told};
pub use given::answers_are_given;
pub use outcome::Outcome;
pub use polls::poll_is_polled;
pub use stands::{one_owns_each, waiters_are_served};
