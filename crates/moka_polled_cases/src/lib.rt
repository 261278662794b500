//! Worked cases of calls that are polled whole: what no clause says.
#![tactic(auto)]

#[cfg(test)]
mod acts;
#[cfg(test)]
mod model;
#[cfg(test)]
mod orders;
#[cfg(test)]
mod rows;
#[cfg(test)]
mod two_loads;
