//! Which types the cache takes as keys, values and errors: those whose clones equal their originals.
#![tactic(auto)]

mod exact;
mod shared;
mod types;

pub use exact::Exact;
pub use shared::Shared;
