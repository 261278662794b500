//! Worked cases of the schedule machine and of plays: what no clause of them says.
#![tactic(auto)]

#[cfg(test)]
mod building;
#[cfg(test)]
mod computes;
#[cfg(test)]
mod counting;
#[cfg(test)]
mod drops;
#[cfg(test)]
mod durations;
#[cfg(test)]
mod equal_keys;
#[cfg(test)]
mod faults;
#[cfg(test)]
mod fresh;
#[cfg(test)]
mod in_memory;
#[cfg(test)]
mod kept_locks;
#[cfg(test)]
mod listener;
#[cfg(test)]
mod loads;
#[cfg(test)]
mod memory;
#[cfg(test)]
mod orders;
#[cfg(test)]
mod pieces;
#[cfg(test)]
mod predicates;
#[cfg(test)]
mod refused;
#[cfg(test)]
mod removals;
#[cfg(test)]
mod rows;
#[cfg(test)]
mod stepping;
#[cfg(test)]
mod uses;
#[cfg(test)]
mod walk_model;
#[cfg(test)]
mod walks;
