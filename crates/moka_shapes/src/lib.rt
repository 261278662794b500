//! What a call of the reference cache answers, whatever worlds it meets: no run need lead to them.
//!
//! Each law is the contract of a function that does nothing. To call it is to cite the law.
#![tactic(auto)]

mod computes;
mod loads;
mod walks;

pub use computes::computes_tell;
pub use loads::loads_tell;
pub use walks::others_give_none;
