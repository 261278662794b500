//! What a keeper is.

ghost use Rattle.std.specs.Prelude.{◌≡◌, ℕ, ◌≤◌, IfSome, IfOk, OnOk, OnErr};
ghost use Rattle.moka_ends.specs.Faults.{HasRisen};
ghost use Rattle.moka_keepers.specs.Keeping.{Kept, HasFailed, HasPut};
ghost use Rattle.moka_keepers.specs.Writes.{write_of};

use moka_ends::Failed;

/// Keeps pairs of numbers: a file, a table, another process. Its calls may fail.
///
/// A keeper means a finite map and the list of the puts that answered Ok, where it tells them
/// (`told`), and a count of faults that never falls (`faults`).
pub trait Keeper {
    ghost told: { Self → Kept };

    ghost faults: { Self → ℕ };

    /// Puts the value under the key, or takes the key out where there is none. `Failed` comes only of
    /// a fault in this call; whether the change was made is then open.
    fn put(&mut self, key: u32, value: Option<u32>) -> Result<(), Failed>
        ensures put { OnOk result
            (HasPut (told self.old) (write_of key value) (told self.new)) }
        ensures failed { OnErr result
            (HasFailed (told self.old) (write_of key value) (told self.new)) }
        // faults
        ensures fault { OnErr result (HasRisen (faults self.old) (faults self.new)) }
        ensures calm { OnOk result (faults self.new ≡ faults self.old) }
        ensures faults { faults self.old ≤ faults self.new };

    /// Answers the value under the key, if there is one. `Failed` comes only of a fault in this call.
    /// What the keeper tells stays.
    fn get(&mut self, key: u32) -> Result<Option<u32>, Failed>
        ensures value { IfOk result (λ value. IfSome (told self.old).pairs (λ ps. value ≡ ps key)) }
        ensures stays { told self.new ≡ told self.old }
        // faults
        ensures fault { OnErr result (HasRisen (faults self.old) (faults self.new)) }
        ensures calm { IfOk result (λ value. faults self.new ≡ faults self.old) }
        ensures faults { faults self.old ≤ faults self.new };
}
