//! Writing all of a piece to a sink.

ghost use Rattle.std.specs.Prelude.{◌≡◌, ℕ, ◌+◌, ◌≤◌, OnOk, OnErr, length, take};
ghost use Rattle.moka_ends.specs.Bytes.{Extends};
ghost use Rattle.moka_ends.specs.Faults.{HasRisen};

use crate::{Failed, Sink};

/// Writes all the bytes, however many pieces the sink takes them in.
///
/// `Failed` comes only of a fault in this call, and then the sink has taken none or some of the
/// bytes, in order.
pub fn write_all<S: Sink>(sink: &mut S, bytes: &[u8]) -> Result<(), Failed>
    ensures all { OnOk result (Extends (S.written sink.old) bytes.now (S.written sink.new)) }
    // errors
    ensures fault { OnErr result (HasRisen (S.faults sink.old) (S.faults sink.new)) }
    ensures some { OnErr result ((n : ℕ) × (n ≤ length bytes.now)
        × Extends (S.written sink.old) (take n bytes.now) (S.written sink.new)) }
    ensures faults { S.faults sink.old ≤ S.faults sink.new }
    ensures calm { OnOk result (S.faults sink.new ≡ S.faults sink.old) }
    ensures once { S.faults sink.new ≤ S.faults sink.old + 1 }
{
    let mut done = 0;
    while done < bytes.len() {
        let count = sink.write(&bytes[done..])?;
        done += count;
    }
    Ok(())
}
