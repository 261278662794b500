//! The machine: the cache on one thread, whose calls are driven event by event.
//!
//! `Machine::serve` carries one event out; `run` of `moka_run` carries a list of them out.
#![tactic(auto)]

mod call_places;
mod calls;
mod lists;
mod machine;
mod notices;
mod number_tests;
mod reaching;
mod serving;
mod steps;

pub use lists::PlaceList;
pub use machine::Machine;
pub use notices::NoticeList;
pub use number_tests::NumberTests;
