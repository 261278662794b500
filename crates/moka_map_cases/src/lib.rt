//! Worked cases of `HashMap`: what no clause of it says.
#![tactic(auto)]

#[cfg(test)]
mod calls;
#[cfg(test)]
mod hashers;
#[cfg(test)]
mod many;
#[cfg(test)]
mod memory;
#[cfg(test)]
mod pairs;
#[cfg(test)]
mod walks;
