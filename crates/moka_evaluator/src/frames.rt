//! The frames of a query's stack.
ghost use Rattle.std.specs.Prelude.{◌≡◌};
ghost use Rattle.moka_evaluator.specs.Plain.{first_of, next_of_branch, next_of_two, next_operand, second_of, value_from, with_value};

use crate::Rule;

/// The values of a rule's operands that were handed down so far, in the order in which they were
/// sought.
#[derive(Clone, Copy, PartialEq, Eq, Debug)]
pub enum Operands {
    /// None was handed down yet.
    Nothing,
    /// This is the value of the first.
    First(u32),
    /// These are the values of the first and the second.
    Both(u32, u32),
}

impl Operands {
    /// Adds a value that was handed down. A rule takes at most two.
    pub fn with(self, value: u32) -> Operands
        ensures { result ≡ with_value self value }
    {
        match self {
            Operands::Nothing => Operands::First(value),
            Operands::First(first) => Operands::Both(first, value),
            Operands::Both(first, second) => Operands::Both(first, second),
        }
    }
}

/// A frame of a query's stack: a rule that the query seeks or owns.
#[derive(Clone, Copy, PartialEq, Eq, Debug)]
pub struct Frame {
    /// The number of the rule.
    pub rule: u32,
    /// Whether the query owns the rule here: it evaluates it, and others wait for it.
    pub owns: bool,
    /// The values of the operands so far.
    pub operands: Operands,
}

impl Operands {
    // The values of the first and the second, 0 where none was handed down.
    fn values(self) -> (u32, u32)
        ensures first { result.0 ≡ first_of self }
        ensures second { result.1 ≡ second_of self }
    {
        match self {
            Operands::Nothing => (0, 0),
            Operands::First(first) => (first, 0),
            Operands::Both(first, second) => (first, second),
        }
    }
}

// Of two operands the one that is needed after these values.
fn next_of_two(a: u32, b: u32, operands: Operands) -> Option<u32>
    ensures { result ≡ next_of_two a b operands }
{
    match operands {
        Operands::Nothing => Some(a),
        Operands::First(_) => Some(b),
        Operands::Both(_, _) => None,
    }
}

// First the condition, and then the one branch or the other.
fn next_of_branch(a: u32, b: u32, c: u32, operands: Operands) -> Option<u32>
    ensures { result ≡ next_of_branch a b c operands }
{
    match operands {
        Operands::Nothing => Some(a),
        Operands::First(0) => Some(c),
        Operands::First(_) => Some(b),
        Operands::Both(_, _) => None,
    }
}

impl Rule {
    /// Answers which operand is needed next, after these values: none where the rule's value follows
    /// from them.
    pub fn next_operand(self, operands: Operands) -> Option<u32>
        ensures { result ≡ next_operand self operands }
    {
        match self {
            Rule::Const(_) => None,
            Rule::Add(a, b) => next_of_two(a, b, operands),
            Rule::Mul(a, b) => next_of_two(a, b, operands),
            Rule::Min(a, b) => next_of_two(a, b, operands),
            Rule::Max(a, b) => next_of_two(a, b, operands),
            Rule::If(a, b, c) => next_of_branch(a, b, c, operands),
        }
    }

    /// Computes the rule's value from those of its operands.
    pub fn value_from(self, operands: Operands) -> u32
        ensures { result ≡ value_from self operands }
    {
        let (first, second) = operands.values();
        match self {
            Rule::Const(value) => value,
            Rule::Add(_, _) => first.wrapping_add(second),
            Rule::Mul(_, _) => first.wrapping_mul(second),
            Rule::Min(_, _) => first.min(second),
            Rule::Max(_, _) => first.max(second),
            Rule::If(_, _, _) => second,
        }
    }
}
