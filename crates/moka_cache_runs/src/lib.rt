//! Calls of caches of numbers that are run and compared with what is said of them, for the crates
//! of the cases of `Cache`.
#![tactic(auto)]

pub mod asks;
pub mod caches;
pub mod calls;
pub mod inits;
pub mod numbers;
pub mod replies;
pub mod rows;
pub mod run;
pub mod tasks;
