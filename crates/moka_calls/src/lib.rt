//! A call to a segment of arrays that grows while calls run, one access a step.
//!
//! `TableCall` names its next access and takes what that saw. It touches no word, so that it serves
//! a table of one thread as well as one on threads. Contracts speak of it by the definitions of
//! `moka_growth`: the call that it stands for, or how that one ended.
#![tactic(auto)]

mod copying;
mod course;
mod decision;
mod layout;
mod probing;
mod rooting;
mod sealing;
mod seeing;
mod table_call;
mod walking;
mod words;

pub use decision::{Decision, NodeList};
pub use layout::{bucket_at, lay_out};
pub use seeing::{seen_is_taken, taken_is_maps};
pub use table_call::TableCall;
