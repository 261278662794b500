//! Tables: finite maps from keys to stored records, whose operations are made of single steps.
//!
//! `Table` is what a cache needs of one; `PlainTable` decides each operation at its first step.
#![tactic(auto)]

mod entries;
mod plain;
mod table;

pub use entries::EntryList;
pub use moka_hist::{Stored, TableAnswer, TableOp, TableTurn};
pub use plain::{PlainCall, PlainTable};
pub use table::Table;
