//! The program: from the words of a command line, a source, a sink and a keeper to a status.
ghost use Rattle.std.specs.Prelude.{◌≡◌, ◌≢◌, ◌↔◌, ℕ, IfSome, codes};
ghost use Rattle.moka_ends.specs.Bytes.{GivesSome, HasMoreThan};
ghost use Rattle.moka_ends.specs.Faults.{HasRisen};
ghost use Rattle.moka_lines.specs.Programs.{IsAnswer, IsBeforeAnswer, IsDue, IsWord, BreaksOff, FindsBadLine, Responds, most_bytes};
ghost use Rattle.moka_behind_run.specs.Calls.{FitsAnywhere, call_line};
ghost use Rattle.moka_behind_run.specs.Playing.{BehavesBy};

use crate::calls::{Call, Calls};
use moka_ends::{Sink, Source};
use moka_keepers::Keeper;
use moka_lines::{Status, run};
use std::alloc::Global;

/// Makes the calls that the source spells, a line each, on a new cache before the keeper, and writes
/// the replies to the sink, a line each, and how many writes are unsent.
///
/// The words are those of a command line after the program's name: the one word `behind`. The
/// statuses are those of [`moka_lines::run`]: `BadWords`, with nothing read; `BadLine`, the first
/// line that spells no call, with nothing called; `TooLong` past 16,777,216 bytes; `ReadFault` and
/// `WriteFault` where a call of the source or of the sink failed; `Memory`, never of an empty source.
/// A keeper that fails is told by `fault` in the text.
///
/// At any other status than `Done` and `WriteFault` the sink was not called. The keeper is unchanged
/// at `BadWords`, `BadLine`, `TooLong` and `ReadFault`.
pub fn behind<Src: Source, Snk: Sink, Kp: Keeper>(
    alloc: Global,
    words: &[String],
    source: &mut Src,
    sink: &mut Snk,
    keeper: &mut Kp,
) -> Status
    ensures done { result ≡ Status.Done → Responds (IsAnswer call_line FitsAnywhere
        (BehavesBy Kp.told Kp.faults) keeper.old keeper.new)
        (Src.left source.old) (Src.left source.new) (Snk.written sink.old) (Snk.written sink.new) }
    // causes
    ensures bad_words { (result ≡ Status.BadWords) ↔ (¬ IsWord (codes "behind") words.now) }
    ensures bad_line { (line : ℕ) → result ≡ Status.BadLine line → FindsBadLine call_line
        FitsAnywhere (Src.left source.old) (Src.left source.new) line }
    ensures too_long { result ≡ Status.TooLong → HasMoreThan most_bytes (Src.left source.old) }
    ensures read_fault { result ≡ Status.ReadFault
        → HasRisen (Src.faults source.old) (Src.faults source.new) }
    ensures write_fault { result ≡ Status.WriteFault
        → HasRisen (Snk.faults sink.old) (Snk.faults sink.new) }
    ensures read_calm { result ≢ Status.ReadFault → Src.faults source.new ≡ Src.faults source.old }
    ensures write_calm { result ≢ Status.WriteFault → Snk.faults sink.new ≡ Snk.faults sink.old }
    ensures memory { result ≡ Status.Memory → HasMoreThan 0 (Src.left source.old) }
    ensures due { IsWord (codes "behind") words.now
        → IfSome (Src.left source.old) (λ bytes. IsDue call_line FitsAnywhere bytes result) }
    ensures broken_off { result ≡ Status.WriteFault → BreaksOff (IsAnswer call_line FitsAnywhere
        (BehavesBy Kp.told Kp.faults) keeper.old keeper.new)
        (Src.left source.old) (Src.left source.new) (Snk.written sink.old) (Snk.written sink.new) }
    // what stays
    ensures unread { result ≡ Status.BadWords → source.new ≡ source.old }
    ensures unwritten { result ≢ Status.Done → result ≢ Status.WriteFault → sink.new ≡ sink.old }
    ensures uncalled { IsBeforeAnswer result → keeper.new ≡ keeper.old }
    ensures front { GivesSome (Src.left source.old) (Src.left source.new) }
{
    run::<Call, Kp, Calls, Src, Snk>(alloc, "behind", Calls, words, source, sink, keeper)
}
