//! Worked cases of walks over tables of many parts, beside writes: what no clause says.
//!
//! A walk's flow goes on layers over any table. Between two of its steps operations are made whole on
//! that table, as others may make them.
#![tactic(auto)]

#[cfg(test)]
mod accesses;
#[cfg(test)]
mod changes;
#[cfg(test)]
mod layers;
#[cfg(test)]
mod model;
mod no_tests;
#[cfg(test)]
mod tests;
#[cfg(test)]
mod walks;

pub use no_tests::NoTests;
