//! What a turn of a query comes to.

/// What a turn of a query comes to.
#[derive(Clone, Copy, PartialEq, Eq, Debug)]
pub enum Turned {
    /// The query went on by one move, and has still to answer.
    Moved,
    /// The query waits for this rule, which another query evaluates.
    Waits { rule: u32 },
    /// The query has answered this value, the plain one of the rule that it was asked for, and is no
    /// longer live.
    Value { value: u32 },
    /// No live query has that number, and nothing changed.
    NoQuery,
}
