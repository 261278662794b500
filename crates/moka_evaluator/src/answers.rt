//! The answers of queries.

/// The answer of a query.
#[derive(Clone, Copy, PartialEq, Eq, Debug)]
pub struct Answer {
    /// The number of the query.
    pub query: u64,
    /// The value of the rule that the query was asked for.
    pub value: u32,
}

/// Answers, in the order in which they came.
pub type AnswerList = Vec<Answer>;
