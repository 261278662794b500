//! The desk of the cache: everything but the table, with one method for each visit of a call.
#![tactic(auto)]

mod applied;
mod asks;
mod conditions;
mod held;
mod holdings;
mod judging;
mod lines;
mod listening;
mod loading;
mod loads;
mod locks;
mod maps;
mod moments;
mod notices;
mod predicates;
mod records;
mod registering;
mod retiring;
mod state;
mod waits;
mod writes;
mod writing;

pub use state::Desk;
