//! An evaluator of acyclic rules, each of which is evaluated once.
//!
//! Queries evaluate rules that build on one another, in any order of turns. The value of each rule is
//! loaded through a cache, so whoever needs a rule that another query evaluates waits for it.
#![tactic(auto)]

mod memo;

pub use memo::Memo;
pub use moka_evaluator::{Answer, AnswerList, Rule, RuleList, Turned, is_acyclic};
