//! Sending unsent writes to a keeper, and finding what a key has behind them.

ghost use Rattle.std.specs.Prelude.{◌≡◌, ℕ, ◌<◌, ◌≤◌, List, [], ◌++◌, length, IfOk, OnOk, OnErr, IfSome, IsSome, IsOk};
ghost use Rattle.moka_ends.specs.Faults.{HasRisen};
ghost use Rattle.moka_keepers.specs.Owing.{Owes, Truth, taken_off, true_pairs};
ghost use Rattle.moka_keepers.specs.Writes.{last_of};
ghost use Rattle.moka_keepers.specs.declared.write.Write.{Write as AWrite};

use crate::{Keeper, Unsent};
use moka_ends::Failed;

impl Unsent {
    /// Sends the writes to the keeper in their order, and takes each off once its put answered Ok.
    /// Answers how many were sent. `Failed` comes only of a fault of the keeper in this call; then
    /// the write whose put failed is the first that is left.
    pub fn send_all<Kp: Keeper>(&mut self, keeper: &mut Kp) -> Result<u64, Failed>
        ensures all { OnOk result (self.new ≡ []) }
        ensures count { IfOk result (λ count. count ≡ length self.old) }
        ensures owes { (truth : Truth) (sent : List AWrite)
            → Owes self.old (Kp.told keeper.old) truth sent
            → Owes self.new (Kp.told keeper.new) truth (sent ++ taken_off self.old self.new) }
        ensures tells { IsSome (Kp.told keeper.new).pairs → IsSome (Kp.told keeper.old).pairs }
        // a put that failed
        ensures front { self.old ≡ taken_off self.old self.new ++ self.new }
        ensures first { OnErr result (0 < length self.new) }
        ensures fault { OnErr result (HasRisen (Kp.faults keeper.old) (Kp.faults keeper.new)) }
        ensures calm { OnOk result (Kp.faults keeper.new ≡ Kp.faults keeper.old) }
        ensures faults { Kp.faults keeper.old ≤ Kp.faults keeper.new }
    {
        let count = self.len() as u64;
        while let Some(write) = self.first() {
            keeper.put(write.key, write.value)?;
            self.pop_first();
        }
        Ok(count)
    }

    /// Answers what the key has behind the cache: what its last unsent write leaves, and where there
    /// is none, what the keeper gives.
    pub fn find<Kp: Keeper>(&self, keeper: &mut Kp, key: u32) -> Result<Option<u32>, Failed>
        ensures true_value { IfOk result (λ found. (truth : Truth) (sent : List AWrite)
            → Owes self.now (Kp.told keeper.old) truth sent
            → IfSome (Kp.told keeper.old).pairs (λ ps. found ≡ true_pairs truth key)) }
        ensures stays { Kp.told keeper.new ≡ Kp.told keeper.old }
        ensures own { IsSome (last_of key self.now) → (keeper.new ≡ keeper.old) × IsOk result }
        // faults
        ensures fault { OnErr result (HasRisen (Kp.faults keeper.old) (Kp.faults keeper.new)) }
        ensures calm { IfOk result (λ found. Kp.faults keeper.new ≡ Kp.faults keeper.old) }
        ensures faults { Kp.faults keeper.old ≤ Kp.faults keeper.new }
    {
        match self.last_of(key) {
            Some(last) => Ok(last),
            None => keeper.get(key),
        }
    }
}
