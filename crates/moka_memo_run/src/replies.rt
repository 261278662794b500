//! The text of replies.
ghost use Rattle.std.specs.Prelude.{◌≡◌, ◌++◌, OnOk};
ghost use Rattle.moka_memo_run.specs.Replies.{answer_line, asked_line, dropped_line, finished_text, known_line, turned_line};

use moka_evaluator::{Answer, Turned};
use moka_lines::{push_line, push_number, push_words};
use std::alloc::AllocError;

/// Appends the reply to an `ask`: the query's number, or that it is refused.
pub fn push_asked(text: &mut Vec<u8>, query: Option<u64>) -> Result<(), AllocError>
    ensures { OnOk result (text.new.items ≡ text.old.items ++ asked_line query) }
{
    match query {
        Some(query) => push_line(text, "query ", query),
        None => push_words(text, "refused\n"),
    }
}

/// Appends the reply to a `turn`.
pub fn push_turned(text: &mut Vec<u8>, turned: Turned) -> Result<(), AllocError>
    ensures { OnOk result (text.new.items ≡ text.old.items ++ turned_line turned) }
{
    match turned {
        Turned::Moved => push_words(text, "moved\n"),
        Turned::Waits { rule } => push_line(text, "wait ", u64::from(rule)),
        Turned::Value { value } => push_line(text, "value ", u64::from(value)),
        Turned::NoQuery => push_words(text, "refused\n"),
    }
}

/// Appends the reply to a `drop`: whether the query was live.
pub fn push_dropped(text: &mut Vec<u8>, dropped: bool) -> Result<(), AllocError>
    ensures { OnOk result (text.new.items ≡ text.old.items ++ dropped_line dropped) }
{
    if dropped {
        push_words(text, "dropped\n")
    } else {
        push_words(text, "refused\n")
    }
}

/// Appends the line of an answer.
fn push_answer(text: &mut Vec<u8>, answer: &Answer) -> Result<(), AllocError>
    ensures { OnOk result (text.new.items ≡ text.old.items ++ answer_line answer.now) }
{
    push_words(text, "answer ")?;
    push_number(text, answer.query)?;
    push_line(text, " ", u64::from(answer.value))
}

/// Appends the reply to a `finish`: the answers in their order.
pub fn push_finished(text: &mut Vec<u8>, answers: &[Answer]) -> Result<(), AllocError>
    ensures { OnOk result (text.new.items ≡ text.old.items ++ finished_text answers.now) }
{
    for answer in answers {
        push_answer(text, answer)?;
    }
    push_words(text, "finished\n")
}

/// Appends the last line: how many rules are known.
pub fn push_known(text: &mut Vec<u8>, count: u64) -> Result<(), AllocError>
    ensures { OnOk result (text.new.items ≡ text.old.items ++ known_line count) }
{
    push_line(text, "known ", count)
}
