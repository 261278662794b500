//! Where bytes come from.

ghost use Rattle.std.specs.Prelude.{◌≡◌, ℕ, ◌+◌, ◌<◌, ◌≤◌, List, Option, OnErr, IfOk, length, take};
ghost use Rattle.moka_ends.specs.Bytes.{Gives, IsSpent};
ghost use Rattle.moka_ends.specs.Faults.{HasRisen};

use crate::Failed;

/// Gives bytes, a piece a call.
///
/// A proof knows the bytes that a source has left, where it tells them, and how many faults it has
/// had: a count that never falls, and rises by no call but one that fails.
pub trait Source {
    ghost left: { Self → Option (List ℕ) };

    ghost faults: { Self → ℕ };

    /// Reads the next bytes into the front of `buf`, and answers how many. Zero means that nothing
    /// is left, where `buf` isn't empty. `Failed` comes only of a fault in this call, and then
    /// nothing is read.
    fn read(&mut self, buf: &mut [u8]) -> Result<usize, Failed>
        ensures within { IfOk result (λ n. n ≤ length buf.old) }
        ensures next { IfOk result (λ n. Gives (left self.old) (take n buf.new) (left self.new)) }
        ensures end { IfOk result (λ n. n ≡ 0 → 0 < length buf.old → IsSpent (left self.new)) }
        // faults
        ensures fault { OnErr result (HasRisen (faults self.old) (faults self.new)) }
        ensures kept { OnErr result (left self.new ≡ left self.old) }
        ensures faults { faults self.old ≤ faults self.new }
        ensures calm { IfOk result (λ n. faults self.new ≡ faults self.old) }
        ensures once { faults self.new ≤ faults self.old + 1 };
}
