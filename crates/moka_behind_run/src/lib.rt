//! The program `behind`: calls of a cache before a keeper that may fail, a line each, and the text of
//! their replies.
#![tactic(auto)]

mod calls;
mod laws;
mod playing;
mod programs;
mod replies;

pub use calls::{Call, Calls};
pub use laws::call_lines_round_trip;
pub use programs::behind;
pub use replies::{Reply, push_reply, push_unsent};
