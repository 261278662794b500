//! The text of schedules and of reports, for keys and values of 32 bits.
//!
//! `specs/ScheduleText` is the grammar of a schedule and `specs/ReportText` the text of a report.
#![tactic(auto)]

mod laws;
mod lines;
mod options;
mod reports;
mod schedules;

pub use laws::{schedule_text_round_trip, schedules_are_never_refused};
pub use reports::write_report;
pub use schedules::{Schedule, ScheduleError, read_schedule};
