//! A keeper in memory that never fails.

ghost use Rattle.std.specs.Prelude.{◌≡◌, ℕ, nat_eq, Some, None, IsOk, IfSome, IfOk};
ghost use Rattle.std.specs.HashMap.{get};
ghost use Rattle.moka_keepers.specs.Keeping.{HasPut};
ghost use Rattle.moka_keepers.specs.Writes.{write_of};

use crate::Keeper;
use crate::changes::change;
use moka_ends::Failed;
use std::collections::HashMap;

/// Keeps pairs in memory, and never fails. A put that finds no memory is lost, and so are all puts
/// after it: from then on the keeper tells nothing. It keeps no list of its puts.
#[derive(Drop)]
pub struct PlainKeeper {
    pairs: HashMap<u32, u32>,
    whole: bool,
}

impl PlainKeeper {
    ghost use Rattle.moka_keepers.specs.PlainKept.{told_if};

    /// Makes a keeper of these pairs.
    pub fn new(pairs: HashMap<u32, u32>) -> PlainKeeper
        ensures { told_if result ≡ record { pairs = Some (get nat_eq pairs); puts = None } }
    {
        PlainKeeper { pairs, whole: true }
    }

    /// Tells whether each put was kept.
    pub fn is_whole(&self) -> bool
        ensures { result ≡ self.now.whole }
    {
        self.whole
    }
}

impl Keeper for PlainKeeper {
    ghost use Rattle.moka_keepers.specs.PlainKept.{told_if};

    ghost told = { told_if };

    ghost faults = { λ k. 0 };

    fn put(&mut self, key: u32, value: Option<u32>) -> Result<(), Failed>
        ensures always { IsOk result }
        ensures put { HasPut (told_if self.old) (write_of key value) (told_if self.new) }
    {
        self.whole = self.whole && change(&mut self.pairs, key, value).is_ok();
        Ok(())
    }

    fn get(&mut self, key: u32) -> Result<Option<u32>, Failed>
        ensures always { IsOk result }
        ensures value { IfOk result
            (λ value. IfSome (told_if self.old).pairs (λ ps. value ≡ ps key)) }
        ensures stays { told_if self.new ≡ told_if self.old }
    {
        Ok(self.pairs.get(&key).copied())
    }
}
