//! The lines of a source.

use moka_evaluator::Rule;

/// A line of the source.
#[derive(Clone, Copy, PartialEq, Eq, Debug)]
pub enum Line {
    /// `rule const N`, `rule add A B`, .. `rule if A B C`: the next rule.
    Rule(Rule),
    /// `ask R`: a query asks for a rule.
    Ask { rule: u32 },
    /// `turn Q`: the query takes a turn.
    Turn { query: u64 },
    /// `drop Q`: the query is dropped.
    Drop { query: u64 },
    /// `finish`: all live queries take turns until none is live.
    Finish,
}
