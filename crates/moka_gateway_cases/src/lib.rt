//! Worked cases of a gateway: what no clause says.
#![tactic(auto)]

#[cfg(test)]
mod acts;
#[cfg(test)]
mod many;
#[cfg(test)]
mod memory;
#[cfg(test)]
mod model;
#[cfg(test)]
mod orders;
#[cfg(test)]
mod rows;
#[cfg(test)]
mod runs;
