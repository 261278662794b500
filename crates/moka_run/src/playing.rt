//! Playing a schedule: from the words of a command line, a source and a sink to a status.
ghost use Rattle.std.specs.Prelude.{◌≡◌, ◌≢◌, ◌↔◌, ℕ, ◌<◌, IfSome, length};
ghost use Rattle.moka_ends.specs.Bytes.{GivesSome, HasMoreThan};
ghost use Rattle.moka_ends.specs.Faults.{HasRisen};
ghost use Rattle.moka_lines.specs.Programs.{IsAfterReading, most_bytes};
ghost use Rattle.moka_run.specs.Playing.{IsPlay, WritesReport, WritesReportFront, Plays, PlaysFront, FindsBadLine, IsDue, status_of_schedule};
ghost use Rattle.moka_text.specs.ScheduleText.{IsFirstBad};

use crate::answers::answer;
use moka_ends::{Sink, Source, read_all, write_all};
use moka_lines::{MOST, Status, is_word, read_status};
use moka_text::{ScheduleError, schedule_text_round_trip};
use std::alloc::Global;

/// The status where a schedule can't be answered for this reason.
fn schedule_status(e: ScheduleError) -> Status
    ensures { result ≡ status_of_schedule e }
{
    match e {
        ScheduleError::BadLine { line } => Status::BadLine { line },
        ScheduleError::Memory => Status::Memory,
    }
}

/// Answers the schedule that the bytes say, on the sink.
#[inline(always)]
fn respond<Snk: Sink>(alloc: Global, bytes: Vec<u8>, sink: &mut Snk) -> Status
    ensures done { result ≡ Status.Done
        → WritesReport bytes.items (Snk.written sink.old) (Snk.written sink.new) }
    ensures bad_line { (line : ℕ) → result ≡ Status.BadLine line → IsFirstBad bytes.items line }
    ensures broken_off { result ≡ Status.WriteFault
        → WritesReportFront bytes.items (Snk.written sink.old) (Snk.written sink.new) }
    ensures read { IsAfterReading result }
    ensures memory { result ≡ Status.Memory → 0 < length bytes.items }
    ensures unwritten { result ≢ Status.Done → result ≢ Status.WriteFault → sink.new ≡ sink.old }
    ensures fault { result ≡ Status.WriteFault
        → HasRisen (Snk.faults sink.old) (Snk.faults sink.new) }
    ensures calm { result ≢ Status.WriteFault → Snk.faults sink.new ≡ Snk.faults sink.old }
{
    let text = match answer(alloc, bytes) {
        Ok(text) => text,
        Err(e) => return schedule_status(e),
    };
    match write_all(sink, text.as_bytes()) {
        Ok(()) => Status::Done,
        Err(_) => Status::WriteFault,
    }
}

/// Plays the schedule that the source gives, and writes its report to the sink.
///
/// The words are those of a command line after the program's name. `play` alone reads the source
/// to its end, runs the schedule that its bytes say on a fresh cache, and writes the report, whose
/// text is made whole before any of it is written. The status tells how it ended:
///
/// - `BadWords`: the words are not the one word `play`; nothing was read.
/// - `BadLine`: the first line that is not in the grammar.
/// - `TooLong`: the source gives more than 16,777,216 bytes.
/// - `ReadFault`, `WriteFault`: a call of the source or of the sink failed. None did at any other
///   status.
/// - `Memory`: memory ran out. Of an empty source it never does.
///
/// Where no call fails and memory lasts, a source that tells its bytes plays to `TooLong` where
/// they are too many, to `BadLine` at their first bad line, and to `Done` where they say a
/// schedule.
///
/// At any other status than `Done` and `WriteFault` the sink was not called; after `WriteFault` the
/// beginning of the report was written.
pub fn play<Src: Source, Snk: Sink>(
    alloc: Global,
    words: &[String],
    source: &mut Src,
    sink: &mut Snk,
) -> Status
    ensures done { result ≡ Status.Done → Plays (Src.left source.old) (Src.left source.new)
        (Snk.written sink.old) (Snk.written sink.new) }
    // causes
    ensures bad_words { (result ≡ Status.BadWords) ↔ (¬ IsPlay words.now) }
    ensures bad_line { (line : ℕ) → result ≡ Status.BadLine line
        → FindsBadLine (Src.left source.old) (Src.left source.new) line }
    ensures too_long { result ≡ Status.TooLong → HasMoreThan most_bytes (Src.left source.old) }
    ensures read_fault { result ≡ Status.ReadFault
        → HasRisen (Src.faults source.old) (Src.faults source.new) }
    ensures write_fault { result ≡ Status.WriteFault
        → HasRisen (Snk.faults sink.old) (Snk.faults sink.new) }
    ensures read_calm { result ≢ Status.ReadFault → Src.faults source.new ≡ Src.faults source.old }
    ensures write_calm { result ≢ Status.WriteFault → Snk.faults sink.new ≡ Snk.faults sink.old }
    ensures memory { result ≡ Status.Memory → HasMoreThan 0 (Src.left source.old) }
    ensures due { IsPlay words.now → IfSome (Src.left source.old) (λ bytes. IsDue bytes result) }
    ensures broken_off { result ≡ Status.WriteFault
        → PlaysFront (Src.left source.old) (Src.left source.new)
        (Snk.written sink.old) (Snk.written sink.new) }
    // what stays
    ensures unread { result ≡ Status.BadWords → source.new ≡ source.old }
    ensures unwritten { result ≢ Status.Done → result ≢ Status.WriteFault → sink.new ≡ sink.old }
    ensures front { GivesSome (Src.left source.old) (Src.left source.new) }
{
    schedule_text_round_trip();
    if !is_word(words, "play") {
        return Status::BadWords;
    }
    match read_all(alloc, source, MOST) {
        Ok(bytes) => respond(alloc, bytes, sink),
        Err(e) => read_status(e),
    }
}
