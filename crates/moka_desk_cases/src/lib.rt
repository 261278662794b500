//! Worked cases of `Desk`, and of the calls as flows: what no clause of these says.
#![tactic(auto)]

#[cfg(test)]
mod asks;
#[cfg(test)]
mod desks;
#[cfg(test)]
mod flows;
#[cfg(test)]
mod loads;
#[cfg(test)]
mod notices;
#[cfg(test)]
mod orders;
#[cfg(test)]
mod predicates;
#[cfg(test)]
mod times;
#[cfg(test)]
mod waking;
#[cfg(test)]
mod writes;
