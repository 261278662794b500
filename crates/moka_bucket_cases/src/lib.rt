//! Worked cases of `BucketTable` and `PlainTable`: what no clause of them says.
#![tactic(auto)]

#[cfg(test)]
mod alone;
#[cfg(test)]
mod hashers;
#[cfg(test)]
mod keys;
#[cfg(test)]
mod listing;
#[cfg(test)]
mod lists;
#[cfg(test)]
mod orders;
#[cfg(test)]
mod pace;
#[cfg(test)]
mod plain;
mod slow;
#[cfg(test)]
mod together;
