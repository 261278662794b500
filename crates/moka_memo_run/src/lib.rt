//! The program `memo`: the lines of rules and of what is asked of them, and the text of the replies.
#![tactic(auto)]

mod forms;
mod laws;
mod lines;
mod places;
mod playing;
mod programs;
mod replies;

pub use laws::memo_lines_round_trip;
pub use lines::Line;
pub use moka_lines::Status;
pub use places::Lines;
pub use programs::memo;
pub use replies::{push_asked, push_dropped, push_finished, push_known, push_turned};
