//! The calls of a cache as states made of single steps.
//!
//! A `Flow` tells its next access (`want`) and goes on with what that access gave (`take`). `step`
//! makes one step of a flow on a `Ground`, and `poll` steps up to the first turn that isn't Going.
//! The schedule machine drives them, and so do the polls of a cache (`moka_kept`).
#![tactic(auto)]

mod calls;
mod computing;
mod copies;
mod departing;
mod flow;
mod goings;
mod ground;
mod keys_left;
mod listening;
mod loading;
mod looking;
mod maintaining;
mod needs;
mod opening;
pub mod points;
mod posting;
mod removing;
mod starts;
mod takes;
mod walking;
mod wants;
mod writing;

pub use flow::Flow;
pub use goings::{Unfinished, poll, step};
pub use ground::{Alone, Ground};
pub use keys_left::KeysLeft;
pub use moka_hist::{Got, Turn, Want};
pub use opening::Opening;
