//! The rules of a cache at work: which records may be seen, why a record leaves, and which records
//! are to leave.
#![tactic(auto)]

mod choice;
mod judge;
mod known;
mod policy;

pub use choice::choose;
pub use judge::{chosen_holds, remove_cause, upsert_cause, visible};
pub use known::{Known, Named, NamedList};
pub use policy::Policy;
