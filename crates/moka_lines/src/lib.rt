//! Programs of lines: each reads a source to its end, finds the first bad line before anything is
//! answered, and writes a text that was made whole before.
//!
//! A program is a [`Grammar`], the lines that it takes, and a [`LineProgram`], the text that answers
//! them. [`run`] does the rest.
#![tactic(auto)]

mod grammar;
mod line_program;
mod programs;
mod reading;
mod status;
mod texts;
mod words;

pub use grammar::Grammar;
pub use line_program::LineProgram;
pub use programs::{MOST, is_word, read_status, run};
pub use reading::{LineError, read_lines, texts_are_read_one_way};
pub use status::Status;
pub use texts::{push_line, push_number, push_words};
pub use words::{after, cut, cut_line, u32_in, u64_in};
