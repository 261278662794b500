//! Worked cases of the lower crates: what no clause of them says.
#![tactic(auto)]

#[cfg(test)]
mod buckets;
#[cfg(test)]
mod calls;
#[cfg(test)]
mod ends;
#[cfg(test)]
mod engine;
#[cfg(test)]
mod numbers;
#[cfg(test)]
mod room;
#[cfg(test)]
mod rows;
#[cfg(test)]
mod streams;
#[cfg(test)]
mod sync;
#[cfg(test)]
mod text;
#[cfg(test)]
mod words;
