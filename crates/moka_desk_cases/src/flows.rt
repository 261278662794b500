//! Worked cases of the calls as flows: what no clause of `moka_init` says.

mod bare;
mod computes;
mod given;
mod loads;
mod maintaining;
mod names;
mod removals;
mod rows;
mod walks;
mod writes;
