//! The program: from the words of a command line, a source and a sink to a status.
ghost use Rattle.std.specs.Prelude.{◌≡◌, ◌≢◌, ◌↔◌, ℕ, IfSome, codes};
ghost use Rattle.moka_ends.specs.Bytes.{GivesSome, HasMoreThan};
ghost use Rattle.moka_ends.specs.Faults.{HasRisen};
ghost use Rattle.moka_lines.specs.Programs.{
  IsDue,
  IsWord,
  BreaksOff,
  FindsBadLine,
  Responds,
  most_bytes,
};
ghost use Rattle.moka_gateway_run.specs.Lines.{FitsAnywhere, line_words};
ghost use Rattle.moka_gateway_run.specs.Playing.{IsGatewayText};

use crate::forms::Lines;
use crate::lines::Line;
use moka_ends::{Sink, Source};
use moka_lines::{Status, run};
use std::alloc::Global;

/// Lets happen to a new gateway what the lines of the source say, and writes to the sink what the
/// gateway does, a line for each thing.
///
/// The words are those of a command line after the program's name: the one word `gateway`. The
/// statuses are those of [`moka_lines::run`]: `BadWords`, with nothing read; `BadLine`, the first
/// line that is not of the program, with nothing done; `TooLong` past 16,777,216 bytes; `ReadFault`
/// and `WriteFault` where a call of the source or of the sink failed; `Memory`, never of an empty
/// source.
///
/// At any other status than `Done` and `WriteFault` the sink was not called.
pub fn gateway<Src: Source, Snk: Sink>(
    alloc: Global,
    words: &[String],
    source: &mut Src,
    sink: &mut Snk,
) -> Status
    ensures done { result ≡ Status.Done → Responds IsGatewayText
        (Src.left source.old) (Src.left source.new) (Snk.written sink.old) (Snk.written sink.new) }
    // causes
    ensures bad_words { (result ≡ Status.BadWords) ↔ (¬ IsWord (codes "gateway") words.now) }
    ensures bad_line { (line : ℕ) → result ≡ Status.BadLine line → FindsBadLine line_words
        FitsAnywhere (Src.left source.old) (Src.left source.new) line }
    ensures too_long { result ≡ Status.TooLong → HasMoreThan most_bytes (Src.left source.old) }
    ensures read_fault { result ≡ Status.ReadFault
        → HasRisen (Src.faults source.old) (Src.faults source.new) }
    ensures write_fault { result ≡ Status.WriteFault
        → HasRisen (Snk.faults sink.old) (Snk.faults sink.new) }
    ensures read_calm { result ≢ Status.ReadFault → Src.faults source.new ≡ Src.faults source.old }
    ensures write_calm { result ≢ Status.WriteFault → Snk.faults sink.new ≡ Snk.faults sink.old }
    ensures memory { result ≡ Status.Memory → HasMoreThan 0 (Src.left source.old) }
    ensures due { IsWord (codes "gateway") words.now
        → IfSome (Src.left source.old) (λ bytes. IsDue line_words FitsAnywhere bytes result) }
    ensures broken_off { result ≡ Status.WriteFault → BreaksOff IsGatewayText
        (Src.left source.old) (Src.left source.new) (Snk.written sink.old) (Snk.written sink.new) }
    // what stays
    ensures unread { result ≡ Status.BadWords → source.new ≡ source.old }
    ensures unwritten { result ≢ Status.Done → result ≢ Status.WriteFault → sink.new ≡ sink.old }
    ensures front { GivesSome (Src.left source.old) (Src.left source.new) }
{
    let mut nothing = ();
    run::<Line, (), Lines, Src, Snk>(alloc, "gateway", Lines, words, source, sink, &mut nothing)
}
