//! What an evaluator of rules is kept in: the stack of each live query, and the line of each rule that
//! a query evaluates.
#![tactic(auto)]

mod places;
mod queries;

pub use places::{Place, Places};
pub use queries::{Queries, Query};
