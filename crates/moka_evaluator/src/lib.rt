//! The reference evaluator of acyclic rules, and what it promises.
//!
//! Queries evaluate rules that build on one another, in any order of turns, and no rule is evaluated
//! twice. The evaluator stands in `specs/`; each law is the contract of a function that does nothing.
//! To call it is to cite the law.
#![tactic(auto)]

mod acyclic;
mod answers;
mod frames;
mod laws;
mod promises;
mod rules;
mod turns;

pub use acyclic::is_acyclic;
pub use answers::{Answer, AnswerList};
pub use frames::{Frame, Operands};
pub use laws::{
    calls_keep_sound, claims_follow, finish_ends, known_are_of_rules, plain_values_follow,
};
pub use promises::{answers_are_plain, calls_keep, known_stays, one_evaluates_each};
pub use rules::{Rule, RuleList};
pub use turns::Turned;
