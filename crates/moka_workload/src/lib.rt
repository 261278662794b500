//! The workload: a schedule of many turns, as a function of how many there are and of a seed.
//!
//! [`Workload`] makes it turn by turn, and takes no memory: a [`Turn`] gives its events one by one.
//! What the workload is, `specs/` says: the words of a seed (`Words`), what a word decides and which
//! events a turn has (`Turns`), and all turns together (`Workload`).
#![tactic(auto)]

mod action;
#[cfg(test)]
mod tests;
mod turn;
mod whole;
mod workload;

pub use action::Action;
pub use turn::Turn;
pub use whole::all_events;
pub use workload::{MOST_TURNS, Workload};
