//! The program `make`: the summary of a run on a generated workload.
//!
//! [`make`] runs the workload of some turns and a seed on a fresh cache, turn by turn, and writes what
//! the run came to: neither its events nor its replies stand in memory.
#![tactic(auto)]

mod counting;
mod laws;
mod making;
mod running;
mod summing;
#[cfg(test)]
mod tests;
mod words;

pub use laws::{made_as_scheduled, makes_write_one, words_ask_for_one, workloads_come_to_one};
pub use making::make;
pub use moka_lines::Status;
pub use words::{Wanted, wanted_in};
