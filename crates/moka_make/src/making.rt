//! Making a summary: from the words of a command line and a sink to a status.

ghost use Rattle.std.specs.Prelude.{◌≡◌, ◌≢◌, ◌↔◌};
ghost use Rattle.moka_ends.specs.Faults.{HasRisen};
ghost use Rattle.moka_lines.specs.Programs.{EndsAs};
ghost use Rattle.moka_make.specs.Making.{IsMakeEnd, Makes, MakesFront};
ghost use Rattle.moka_make.specs.Words.{IsMake};

use crate::summing::summary_text;
use crate::words::wanted_in;
use moka_ends::{Sink, Source, write_all};
use moka_lines::Status;
use std::alloc::Global;

/// Runs a generated workload on a fresh cache, and writes the summary of the run to the sink.
///
/// The words are those of a command line after the program's name: `make`, how many turns, from 1 to
/// 200,000, and a seed of 64 bits, both as a schedule spells numbers. The cache is that of a schedule
/// whose first line is `cache log=64 ttl=2000 listener`, and the summary's text is made whole before
/// any of it is written. The source is read by no make. The status tells how it ended:
///
/// - `BadWords`: the words are not those.
/// - `WriteFault`: a call of the sink failed. None did at any other status.
/// - `Memory`: memory ran out.
///
/// Where the words are those, no call fails and memory lasts, it ends with `Done`. At any other status
/// than `Done` and `WriteFault` the sink was not called; after `WriteFault` the beginning of the
/// summary was written.
pub fn make<Src: Source, Snk: Sink>(
    alloc: Global,
    words: &[String],
    source: &mut Src,
    sink: &mut Snk,
) -> Status
    ensures done { result ≡ Status.Done
        → Makes words.now (Snk.written sink.old) (Snk.written sink.new) }
    // causes
    ensures ends { IsMakeEnd result }
    ensures bad_words { (result ≡ Status.BadWords) ↔ (¬ IsMake words.now) }
    ensures write_fault { result ≡ Status.WriteFault
        → HasRisen (Snk.faults sink.old) (Snk.faults sink.new) }
    ensures write_calm { result ≢ Status.WriteFault → Snk.faults sink.new ≡ Snk.faults sink.old }
    ensures due { IsMake words.now → EndsAs Status.Done result }
    ensures broken_off { result ≡ Status.WriteFault
        → MakesFront words.now (Snk.written sink.old) (Snk.written sink.new) }
    // what stays
    ensures unread { source.new ≡ source.old }
    ensures unwritten { result ≢ Status.Done → result ≢ Status.WriteFault → sink.new ≡ sink.old }
{
    let Some(wanted) = wanted_in(words) else {
        return Status::BadWords;
    };
    let text = match summary_text(alloc, wanted.turns, wanted.seed) {
        Ok(text) => text,
        Err(_) => return Status::Memory,
    };
    match write_all(sink, &text) {
        Ok(()) => Status::Done,
        Err(_) => Status::WriteFault,
    }
}
