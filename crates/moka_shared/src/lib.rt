//! A table that threads share: each bucket is a word of one log.
#![tactic(auto)]

mod answers;
mod asked;
mod book;
mod change;
mod filling;
mod front;
mod growing;
mod insert;
mod linking;
mod links;
mod look;
mod node;
mod open;
mod probe;
mod put;
mod row;
mod rows;
mod seals;
mod seat;
mod seek;
mod segments;
mod standing;
mod swinging;
mod swings;
mod table;
mod tickets;
mod words;

pub use answers::{
    Missed, TryChange, TryFill, TryGet, TryInsert, TryLink, TrySeal, TrySwing, Unopened,
};
pub use book::Law;
pub use moka_facts::{Anything, Fact};
pub use node::Node;
pub use row::Row;
pub use seat::Seat;
pub use table::HashMap;
