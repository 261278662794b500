//! Worked cases of states of `Cache` that are polled by hand, of keys that are equal and not the
//! same, and of a cache that threads share: what no clause of it says.
#![tactic(auto)]

#[cfg(test)]
mod awaiting;
#[cfg(test)]
mod counting;
#[cfg(test)]
mod ending;
#[cfg(test)]
mod outlasting;
#[cfg(test)]
mod reading;
#[cfg(test)]
mod same_keys;
#[cfg(test)]
mod spelling;
#[cfg(test)]
mod threads;
#[cfg(test)]
mod trying;
