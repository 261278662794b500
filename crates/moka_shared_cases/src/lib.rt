//! Worked cases of a table that threads share: what no clause of it says.
#![tactic(auto)]

#[cfg(test)]
mod calls;
#[cfg(test)]
mod growing;
#[cfg(test)]
mod hashers;
#[cfg(test)]
mod memory;
#[cfg(test)]
mod removals;
#[cfg(test)]
mod rows;
#[cfg(test)]
mod seats;
#[cfg(test)]
mod shy;
#[cfg(test)]
mod sizes;
#[cfg(test)]
mod together;
