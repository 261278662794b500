//! Facts of keys and values, of which the user of a table or a cache chooses one.
#![tactic(auto)]

mod fact;

pub use fact::{Anything, Fact};
