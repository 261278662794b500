//! The program: from the words of a command line, a source and a sink to a status.
ghost use Rattle.std.specs.Prelude.{◌≡◌, ◌≢◌, ◌↔◌, ℕ, IfSome, codes};
ghost use Rattle.moka_ends.specs.Bytes.{GivesSome, HasMoreThan};
ghost use Rattle.moka_ends.specs.Faults.{HasRisen};
ghost use Rattle.moka_lines.specs.Programs.{IsDue, IsWord, BreaksOff, FindsBadLine, Responds, most_bytes};
ghost use Rattle.moka_memo_run.specs.Lines.{Fits, line_words};
ghost use Rattle.moka_memo_run.specs.Playing.{IsMemoText};

use crate::lines::Line;
use crate::places::Lines;
use moka_ends::{Sink, Source};
use moka_lines::{Status, run};
use std::alloc::Global;

/// Evaluates the rules that the source gives, as its lines ask, and writes the replies to the sink,
/// and how many rules are known in the end.
///
/// The words are those of a command line after the program's name: the one word `memo`. The statuses
/// are those of [`moka_lines::run`]: `BadWords`, with nothing read; `BadLine`, the first line that is
/// no rule or other line of the program, or may not come there, with nothing evaluated; `TooLong` past
/// 16,777,216 bytes; `ReadFault` and `WriteFault` where a call of the source or of the sink failed;
/// `Memory`, never of an empty source.
///
/// At any other status than `Done` and `WriteFault` the sink was not called.
pub fn memo<Src: Source, Snk: Sink>(
    alloc: Global,
    words: &[String],
    source: &mut Src,
    sink: &mut Snk,
) -> Status
    ensures done { result ≡ Status.Done → Responds IsMemoText
        (Src.left source.old) (Src.left source.new) (Snk.written sink.old) (Snk.written sink.new) }
    // causes
    ensures bad_words { (result ≡ Status.BadWords) ↔ (¬ IsWord (codes "memo") words.now) }
    ensures bad_line { (line : ℕ) → result ≡ Status.BadLine line
        → FindsBadLine line_words Fits (Src.left source.old) (Src.left source.new) line }
    ensures too_long { result ≡ Status.TooLong → HasMoreThan most_bytes (Src.left source.old) }
    ensures read_fault { result ≡ Status.ReadFault
        → HasRisen (Src.faults source.old) (Src.faults source.new) }
    ensures write_fault { result ≡ Status.WriteFault
        → HasRisen (Snk.faults sink.old) (Snk.faults sink.new) }
    ensures read_calm { result ≢ Status.ReadFault → Src.faults source.new ≡ Src.faults source.old }
    ensures write_calm { result ≢ Status.WriteFault → Snk.faults sink.new ≡ Snk.faults sink.old }
    ensures memory { result ≡ Status.Memory → HasMoreThan 0 (Src.left source.old) }
    ensures due { IsWord (codes "memo") words.now
        → IfSome (Src.left source.old) (λ bytes. IsDue line_words Fits bytes result) }
    ensures broken_off { result ≡ Status.WriteFault → BreaksOff IsMemoText
        (Src.left source.old) (Src.left source.new) (Snk.written sink.old) (Snk.written sink.new) }
    // what stays
    ensures unread { result ≡ Status.BadWords → source.new ≡ source.old }
    ensures unwritten { result ≢ Status.Done → result ≢ Status.WriteFault → sink.new ≡ sink.old }
    ensures front { GivesSome (Src.left source.old) (Src.left source.new) }
{
    let mut nothing = ();
    run::<Line, (), Lines, Src, Snk>(
        alloc,
        "memo",
        Lines::Rules { count: 0 },
        words,
        source,
        sink,
        &mut nothing,
    )
}
