//! Worked cases of `Cache`: what no clause of it says.
#![tactic(auto)]

#[cfg(test)]
mod building;
#[cfg(test)]
mod carrying;
#[cfg(test)]
mod computing;
#[cfg(test)]
mod counting;
#[cfg(test)]
mod dropping;
#[cfg(test)]
mod entries;
#[cfg(test)]
mod expiring;
#[cfg(test)]
mod failing;
#[cfg(test)]
mod finding;
#[cfg(test)]
mod giving;
#[cfg(test)]
mod invalidating;
#[cfg(test)]
mod loading;
#[cfg(test)]
mod naming;
#[cfg(test)]
mod playing;
#[cfg(test)]
mod removing;
#[cfg(test)]
mod replacing;
#[cfg(test)]
mod telling;
#[cfg(test)]
mod timing;
