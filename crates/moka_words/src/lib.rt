//! The words that the buckets of an array hold, and what holds of them: probing, exchanging, and
//! the layout of an array in a longer one.
//!
//! The definitions stand in `specs/`: words and arrays (`Words`, `Arrays`), what lasts of them
//! (`Later`), layouts (`Layout`), what an access sees and leaves (`Effect`), and when an array is
//! made anew (`Rehash`). Each law is the contract of a function that does nothing. To call it is to
//! cite the law.
#![tactic(auto)]

mod accesses;
mod exchanging;
mod lasting;
mod layouts;
mod probing;
mod rehash;
mod words;

pub use accesses::{Access, Choice, Seen};
pub use exchanging::exchange_keeps_array;
pub use lasting::{
    absent_is_new, effect_is_later, exchange_is_later, later_goes_on, passed_stays_passed,
    probe_ends_absent,
};
pub use layouts::{layout_has_all, layout_is_array, layout_is_filled};
pub use probing::{first_free_is_reached, probe_comes_to_each};
pub use rehash::RehashOp;
pub use words::Word;
