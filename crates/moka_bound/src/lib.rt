//! How long a call goes on by itself: a number that each step lowers which leaves the call going.
//!
//! The law is the contract of a function that does nothing. To call it is to cite the law.
#![tactic(auto)]

mod falling;

pub use falling::going_falls;
