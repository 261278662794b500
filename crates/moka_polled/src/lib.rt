//! A cache on one thread whose calls are polled whole, and whose outcomes are a function of a small
//! state.
//!
//! `PolledMachine` carries calls out one poll at a time. `polled` of `moka_small` says what each poll
//! comes to.
#![tactic(auto)]

mod machine;
mod no_tests;
mod outcomes;

pub use machine::PolledMachine;
pub use moka_small::Outcome;
pub use no_tests::NoTests;
