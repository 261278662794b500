//! A table in parts, each under a lock of its own, in one history.
#![tactic(auto)]

mod asked;
mod bare;
mod book;
mod change;
mod counted;
mod front;
mod held;
mod named;
mod note;
mod open_book;
mod own;
mod pairs;
mod part;
mod parts;
mod placing;
mod table;

pub use book::{Law, Naming};
pub use change::Change;
pub use moka_facts::{Anything, Fact};
pub use named::{NamedParts, NamedSeat};
pub use note::Note;
pub use open_book::{OpenBook, PARTS};
pub use parts::{NoSeat, Parts};
pub use table::SharedTable;
