//! Worked cases of caches with a listener: what no clause of `Cache` says.
#![tactic(auto)]

#[cfg(test)]
mod calls;
#[cfg(test)]
mod expiring;
#[cfg(test)]
mod keeping;
#[cfg(test)]
mod leaving;
#[cfg(test)]
mod listening;
#[cfg(test)]
mod meeting;
