//! Running a program of lines: from the words of a command line, a source and a sink to a status.
ghost use Rattle.std.specs.Prelude.{◌≡◌, ◌≢◌, ◌↔◌, ℕ, ◌<◌, ◌≤◌, [], IfOk, IfSome, IsErrOf, IsTrue, length, take};
ghost use Rattle.moka_ends.specs.Bytes.{Extends, GivesSome, HasMoreThan};
ghost use Rattle.moka_ends.specs.Faults.{HasRisen};
ghost use Rattle.moka_lines.specs.Lines.{IsFirstBad, Says};
ghost use Rattle.moka_lines.specs.Programs.{
  IsAfterReading,
  IsAnswer,
  IsBeforeAnswer,
  IsDue,
  IsWord,
  BreaksOff,
  FindsBadLine,
  Responds,
  WritesAnswer,
  WritesFront,
  IsWritten,
  most_bytes,
  status_of_lines,
  status_of_read,
};

use crate::grammar::Grammar;
use crate::line_program::LineProgram;
use crate::reading::{LineError, read_lines, texts_are_read_one_way};
use crate::status::Status;
use moka_ends::{ReadError, Sink, Source, read_all, write_all};
use std::alloc::Global;

/// The most bytes that a source may give.
pub const MOST: usize = 16_777_216;

/// Whether the words are this one word.
pub fn is_word(words: &[String], word: &str) -> bool
    ensures { IsTrue result ↔ IsWord word.now words.now }
{
    match words {
        [given] => given.as_str() == word,
        _ => false,
    }
}

/// The status after a read failed so.
pub fn read_status(e: ReadError) -> Status
    ensures { result ≡ status_of_read e }
{
    match e {
        ReadError::TooLong => Status::TooLong,
        ReadError::Fault => Status::ReadFault,
        ReadError::Memory => Status::Memory,
    }
}

/// The status where lines can't be read for this reason.
fn line_status(e: LineError) -> Status
    ensures { result ≡ status_of_lines e }
{
    match e {
        LineError::BadLine { line } => Status::BadLine { line },
        LineError::Memory => Status::Memory,
    }
}

/// Reads the lines that the bytes say, which are given up then.
fn read_given<L: Drop, G: Grammar<L>>(
    alloc: Global,
    grammar: G,
    bytes: Vec<u8>,
) -> Result<Vec<L>, LineError>
    requires { G.has_read grammar [] }
    ensures said { IfOk result (λ said. Says G.spell G.fits bytes.items said.items) }
    ensures bad_line { (line : ℕ) → IsErrOf result (LineError.BadLine line)
        → IsFirstBad G.spell G.fits bytes.items line }
    ensures memory { IsErrOf result LineError.Memory → 0 < length bytes.items }
{
    read_lines(alloc, grammar, &bytes)
}

/// Answers the lines that the bytes say, on the sink.
#[inline(always)]
fn respond<L: Drop, C, P: LineProgram<L, C>, Snk: Sink>(
    alloc: Global,
    program: P,
    bytes: Vec<u8>,
    over: &mut C,
    sink: &mut Snk,
) -> Status
    requires { P.has_read program [] }
    ensures done { result ≡ Status.Done
        → WritesAnswer (IsAnswer P.spell P.fits P.answers over.old over.new) bytes.items
        (Snk.written sink.old) (Snk.written sink.new) }
    ensures bad_line { (line : ℕ) → result ≡ Status.BadLine line
        → IsFirstBad P.spell P.fits bytes.items line }
    ensures broken_off { result ≡ Status.WriteFault
        → WritesFront (IsAnswer P.spell P.fits P.answers over.old over.new) bytes.items
        (Snk.written sink.old) (Snk.written sink.new) }
    ensures read { IsAfterReading result }
    ensures memory { result ≡ Status.Memory → 0 < length bytes.items }
    ensures unwritten { result ≢ Status.Done → result ≢ Status.WriteFault → sink.new ≡ sink.old }
    ensures unanswered { IsBeforeAnswer result → over.new ≡ over.old }
    ensures fault { result ≡ Status.WriteFault
        → HasRisen (Snk.faults sink.old) (Snk.faults sink.new) }
    ensures calm { result ≢ Status.WriteFault → Snk.faults sink.new ≡ Snk.faults sink.old }
{
    if bytes.is_empty() {
        return write_text(sink, P::of_nothing().as_bytes());
    }
    let lines = match read_given(alloc, program, bytes) {
        Ok(lines) => lines,
        Err(e) => return line_status(e),
    };
    match P::answer(alloc, lines, over) {
        Ok(text) => write_text(sink, &text),
        Err(_) => Status::Memory,
    }
}

/// Writes a text that was made whole.
fn write_text<Snk: Sink>(sink: &mut Snk, text: &[u8]) -> Status
    ensures ends { IsWritten result }
    ensures done { result ≡ Status.Done
        → Extends (Snk.written sink.old) text.now (Snk.written sink.new) }
    ensures broken_off { result ≡ Status.WriteFault → ((n : ℕ) × (n ≤ length text.now)
        × Extends (Snk.written sink.old) (take n text.now) (Snk.written sink.new)) }
    ensures fault { result ≡ Status.WriteFault
        → HasRisen (Snk.faults sink.old) (Snk.faults sink.new) }
    ensures calm { result ≡ Status.Done → Snk.faults sink.new ≡ Snk.faults sink.old }
{
    match write_all(sink, text) {
        Ok(()) => Status::Done,
        Err(_) => Status::WriteFault,
    }
}

/// Runs a program of lines on the bytes that the source gives, and writes to the sink what answers
/// them.
///
/// The words are those of a command line after the program's name. Where they are the one word, the
/// source is read to its end, its lines are answered over what the program is handed besides, and
/// the text is made whole before any of it is written. The status tells how it ended:
///
/// - `BadWords`: the words are not that one word; nothing was read.
/// - `BadLine`: the first line that is not in the grammar, found before anything was answered.
/// - `TooLong`: the source gives more than 16,777,216 bytes.
/// - `ReadFault`, `WriteFault`: a call of the source or of the sink failed. None did at any other
///   status.
/// - `Memory`: memory ran out. Of an empty source it never does.
///
/// Where no call fails and memory lasts, a source that tells its bytes leads to `TooLong` where they
/// are too many, to `BadLine` at their first bad line, and to `Done` where they are lines of the
/// program.
///
/// At any other status than `Done` and `WriteFault` the sink was not called; after `WriteFault` the
/// beginning of the text was written. What the program was handed is unchanged at each status that
/// comes before the answer: `BadWords`, `BadLine`, `TooLong` and `ReadFault`.
pub fn run<L: Drop, C, P: LineProgram<L, C>, Src: Source, Snk: Sink>(
    alloc: Global,
    word: &str,
    program: P,
    words: &[String],
    source: &mut Src,
    sink: &mut Snk,
    over: &mut C,
) -> Status
    requires { P.has_read program [] }
    ensures done { result ≡ Status.Done
        → Responds (IsAnswer P.spell P.fits P.answers over.old over.new)
        (Src.left source.old) (Src.left source.new) (Snk.written sink.old) (Snk.written sink.new) }
    // causes
    ensures bad_words { (result ≡ Status.BadWords) ↔ (¬ IsWord word.now words.now) }
    ensures bad_line { (line : ℕ) → result ≡ Status.BadLine line
        → FindsBadLine P.spell P.fits (Src.left source.old) (Src.left source.new) line }
    ensures too_long { result ≡ Status.TooLong → HasMoreThan most_bytes (Src.left source.old) }
    ensures read_fault { result ≡ Status.ReadFault
        → HasRisen (Src.faults source.old) (Src.faults source.new) }
    ensures write_fault { result ≡ Status.WriteFault
        → HasRisen (Snk.faults sink.old) (Snk.faults sink.new) }
    ensures read_calm { result ≢ Status.ReadFault → Src.faults source.new ≡ Src.faults source.old }
    ensures write_calm { result ≢ Status.WriteFault → Snk.faults sink.new ≡ Snk.faults sink.old }
    ensures memory { result ≡ Status.Memory → HasMoreThan 0 (Src.left source.old) }
    ensures due { IsWord word.now words.now
        → IfSome (Src.left source.old) (λ bytes. IsDue P.spell P.fits bytes result) }
    ensures broken_off { result ≡ Status.WriteFault
        → BreaksOff (IsAnswer P.spell P.fits P.answers over.old over.new)
        (Src.left source.old) (Src.left source.new) (Snk.written sink.old) (Snk.written sink.new) }
    // what stays
    ensures unread { result ≡ Status.BadWords → source.new ≡ source.old }
    ensures unwritten { result ≢ Status.Done → result ≢ Status.WriteFault → sink.new ≡ sink.old }
    ensures unanswered { IsBeforeAnswer result → over.new ≡ over.old }
    ensures front { GivesSome (Src.left source.old) (Src.left source.new) }
{
    texts_are_read_one_way::<L, P>();
    if !is_word(words, word) {
        return Status::BadWords;
    }
    match read_all(alloc, source, MOST) {
        Ok(bytes) => respond::<L, C, P, Snk>(alloc, program, bytes, over, sink),
        Err(e) => read_status(e),
    }
}
