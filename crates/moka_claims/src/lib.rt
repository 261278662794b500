//! The claims of queries on rules: which query seeks which rule, which rules are held, and what is
//! known, over a cache that has each known value.
//!
//! A query that seeks a rule has a call of its own, a `get_with` of the rule's number. The call that
//! asks holds the rule, until that is settled or free.
#![tactic(auto)]

mod claims;
mod look;

pub use claims::Claims;
pub use look::Look;
