//! The schedule machine: runs of events on a `Machine`, and plays of schedules.
//!
//! `run` carries a list of events out on a machine, and `play` the text of a schedule.
#![tactic(auto)]

mod answers;
mod laws;
mod playing;
mod report;
mod runs;

pub use laws::says_or_is_bad;
pub use moka_lines::Status;
pub use moka_machine::{Machine, NoticeList, NumberTests, PlaceList};
pub use playing::play;
pub use report::{Memory, ReplyList, Report};
pub use runs::run;
