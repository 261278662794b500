//! What visits need of the desk.
#![tactic(auto)]

mod needs;

pub use needs::{Ending, Need};
