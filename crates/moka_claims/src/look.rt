//! What a look at a sought rule comes to.

/// What a look at a sought rule comes to.
#[derive(Clone, Copy, PartialEq, Eq, Debug)]
pub enum Look {
    /// The rule is known: this is its value. The query no longer seeks it.
    Value { value: u32 },
    /// No call held the rule. From now on that of the query does, and the query no longer seeks it.
    Holds,
    /// A call of another query holds the rule. `before` where a look came to that before.
    Waits { before: bool },
}
