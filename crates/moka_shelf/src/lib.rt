//! A place for the items of a table that threads share: each number shows one item, for good.
#![tactic(auto)]

mod once;
mod rows;
mod shelf;
#[cfg(test)]
mod tests;

pub use once::{Hidden, OnceShelf};
pub use shelf::{Numbered, Shelf};
