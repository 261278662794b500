//! The summary of a run: how many replies of each kind it had, and what stood at its end, as a text
//! of twelve lines.
//!
//! [`Tally`] counts replies as they come, and [`write_summary`] writes the text of a [`Summary`].
#![tactic(auto)]

mod summary;
mod tally;
#[cfg(test)]
mod tests;
mod text;

pub use summary::Summary;
pub use tally::Tally;
pub use text::write_summary;
