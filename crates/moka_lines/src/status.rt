//! How a program of lines ended.
ghost use Rattle.std.specs.Prelude.{◌≡◌, Some};
ghost use Rattle.moka_lines.specs.Statuses.{exit_code, status_words};

use std::fmt;

/// How a program of lines ended.
#[derive(Clone, Copy, PartialEq, Eq, Debug)]
pub enum Status {
    /// The whole text was written.
    Done,
    /// The command line is not the one word of the program.
    BadWords,
    /// The first line of the source that is not in the grammar, numbered from 1.
    BadLine { line: u64 },
    /// The source gives more than 16,777,216 bytes.
    TooLong,
    /// A read failed.
    ReadFault,
    /// A write failed. Some of the text may have been written.
    WriteFault,
    /// Memory ran out.
    Memory,
}

impl Status {
    /// The exit status of a program that ends so.
    pub fn code(self) -> u8
        ensures { result ≡ exit_code self }
    {
        match self {
            Status::Done => 0,
            Status::BadWords => 1,
            Status::BadLine { .. } => 2,
            Status::TooLong => 3,
            Status::ReadFault => 4,
            Status::WriteFault => 5,
            Status::Memory => 6,
        }
    }
}

/// The line on standard error, without its end. There is none after `Done`.
impl fmt::Display for Status {
    ghost output = { λ s. Some (status_words s) };

    fn fmt<W: fmt::Write>(&self, f: &mut fmt::Formatter<W>) -> fmt::Result {
        match self {
            Status::Done => Ok(()),
            Status::BadWords => write!(f, "bad words"),
            Status::BadLine { line } => write!(f, "bad line {line}"),
            Status::TooLong => write!(f, "too long"),
            Status::ReadFault => write!(f, "read fault"),
            Status::WriteFault => write!(f, "write fault"),
            Status::Memory => write!(f, "memory"),
        }
    }
}
