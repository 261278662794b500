//! Where bytes go.

ghost use Rattle.std.specs.Prelude.{◌≡◌, ℕ, ◌+◌, ◌<◌, ◌≤◌, List, Option, OnErr, IfOk, length, take};
ghost use Rattle.moka_ends.specs.Bytes.{Extends};
ghost use Rattle.moka_ends.specs.Faults.{HasRisen};

use crate::Failed;

/// Takes bytes, a piece a call.
///
/// A proof knows the bytes that were written so far, where the sink tells them, and how many faults
/// it has had: a count that never falls, and rises by no call but one that fails.
pub trait Sink {
    ghost written: { Self → Option (List ℕ) };

    ghost faults: { Self → ℕ };

    /// Writes bytes off the front of `bytes`, and answers how many: one at least, where there are
    /// any. `Failed` comes only of a fault in this call, and then nothing is written.
    fn write(&mut self, bytes: &[u8]) -> Result<usize, Failed>
        ensures within { IfOk result (λ n. n ≤ length bytes.now) }
        ensures some { IfOk result (λ n. 0 < length bytes.now → 0 < n) }
        ensures next { IfOk result
            (λ n. Extends (written self.old) (take n bytes.now) (written self.new)) }
        // faults
        ensures fault { OnErr result (HasRisen (faults self.old) (faults self.new)) }
        ensures kept { OnErr result (written self.new ≡ written self.old) }
        ensures faults { faults self.old ≤ faults self.new }
        ensures calm { IfOk result (λ n. faults self.new ≡ faults self.old) }
        ensures once { faults self.new ≤ faults self.old + 1 };
}
