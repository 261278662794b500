//! A table, a desk and what is begun on the table, as the ground of one call at a time.
//!
//! `Layers` is over any `Table`. The schedule machine stands on it.
#![tactic(auto)]

mod layers;
mod visits;

pub use layers::Layers;
