//! The reference cache is determined: two runs on the same events reply the same.
//!
//! Each law is the contract of a function that does nothing. To call it is to cite the law.
#![tactic(auto)]

mod determined;

pub use determined::runs_are_determined;
