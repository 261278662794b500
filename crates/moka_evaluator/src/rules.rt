//! Rules, and how each gets its value.

/// How a rule gets its value: it is a constant, or comes from the values of other rules, its
/// operands. Rules are numbered from 1, in their order.
#[derive(Clone, Copy, PartialEq, Eq, Debug)]
pub enum Rule {
    /// This constant.
    Const(u32),
    /// The sum of two rules' values, which wraps at 2^32.
    Add(u32, u32),
    /// The product of two rules' values, which wraps at 2^32.
    Mul(u32, u32),
    /// The lesser of two rules' values.
    Min(u32, u32),
    /// The greater of two rules' values.
    Max(u32, u32),
    /// The value of the second rule where that of the first isn't 0, else that of the third. Of the
    /// last two only one is evaluated.
    If(u32, u32, u32),
}

/// Rules in their order: the first one is rule 1.
pub type RuleList = Vec<Rule>;
