//! What one whole poll of a call does, in a cache without a listener: its reply, what the call has
//! still to do, and the table and the desk afterwards. No run need be at hand.
//!
//! Each law is the contract of a function that does nothing. To call it is to cite the law.
#![tactic(auto)]

mod calm;
mod gets;
mod loads;
mod removals;
mod times;
mod writes;

pub use calm::polls_leave_calm;
pub use gets::get_poll;
pub use loads::{loads_poll, told_poll, waits_poll};
pub use removals::{evict_poll, invalidate_all_poll, invalidate_poll, remove_poll};
pub use times::seen_without_times;
pub use writes::{insert_poll, or_insert_poll};
