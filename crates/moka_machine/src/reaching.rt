//! The machine as the ground of the call that was taken out.
ghost use Rattle.std.specs.Prelude.{◌≡◌, IfOk, OnErr};
ghost use Rattle.std.proofs.Common.{refl, ◌∙◌};
ghost use Rattle.moka_layers.specs.Counted.{counted};

use crate::machine::Machine;
use moka_hist::{Got, IdList, Tests, Visit, Want};
use moka_init::{Alone, Ground};
use moka_values::Exact;
use std::alloc::AllocError;
use std::hash::Hash;

impl<K: Eq + Hash + Exact, V: Exact, E: Exact, T: Tests<K, V> + Drop> Ground<K, V, E>
    for Machine<K, V, E, T> {
    ghost use Rattle.moka_hist.specs.State.{World};
    ghost use Rattle.moka_init.specs.Grounds.{Accesses, Gives, Lacks, OfWanted};
    ghost use Rattle.moka_layers.specs.Needing.{NeedsMemory};
    ghost use Rattle.moka_layers.specs.Layers.{account_of};
    ghost use Rattle.moka_machine.specs.Machine.{Reaches, AllowsEvent};
    ghost use Rattle.moka_machine.specs.TheTable.{the_table};

    ghost stands = { λ m w. Reaches K.eq T.Tests m w };

    ghost fits = { λ m want. AllowsEvent K.eq T.Tests m want };

    ghost account = { λ m. account_of (the_table K.eq) m.layers };

    ghost needs = { NeedsMemory };

    ghost keeps = { λ old new. new.calls ≡ old.calls };

    ghost allows = { λ m w want stands may. (w, stands, may) };

    ghost keeps_same = { λ m. refl };

    ghost keeps_on = { λ a b c before after. after ∙ before };

    ghost counts = { λ m w stands. counted (the_table K.eq) T.Tests K.eq m.layers w stands.layers };

    fn access(&mut self, want: Want<K, V, E>) -> Result<Got<K, V, E>, AllocError>
        requires fits { AllowsEvent K.eq T.Tests self.old want }
        // What it gives, and what is told then.
        ensures gives { IfOk result (λ given.
            OfWanted (account_of (the_table K.eq) self.old.layers) want
            (λ access. Gives K.eq self.old.layers.call (Reaches K.eq T.Tests self.old) access given
            (Reaches K.eq T.Tests self.new))) }
        ensures tells { IfOk result (λ given.
            OfWanted (account_of (the_table K.eq) self.old.layers) want
            (λ access. Accesses (account_of (the_table K.eq) self.old.layers) access given
            (account_of (the_table K.eq) self.new.layers))) }
        ensures keeps { self.new.calls ≡ self.old.calls }
        // Without memory.
        ensures err { OnErr result (account_of (the_table K.eq) self.new.layers
            ≡ account_of (the_table K.eq) self.old.layers) }
        ensures err_stands { OnErr result ((w : World K V E) → Reaches K.eq T.Tests self.old w
            → Reaches K.eq T.Tests self.new w) }
        ensures err_needs { OnErr result
            (OfWanted (account_of (the_table K.eq) self.old.layers) want
            (Lacks (Reaches K.eq T.Tests self.old) NeedsMemory)) }
    {
        self.layers.access(want)
    }

    fn retire(&mut self, ids: &IdList) -> Result<Got<K, V, E>, AllocError>
        requires fits { AllowsEvent K.eq T.Tests self.old (Want.Desk (Visit.Retire ids.now)) }
        // What it gives, and what is told then.
        ensures gives { IfOk result (λ given.
            OfWanted (account_of (the_table K.eq) self.old.layers) (Want.Desk (Visit.Retire ids.now))
            (λ access. Gives K.eq self.old.layers.call (Reaches K.eq T.Tests self.old) access given
            (Reaches K.eq T.Tests self.new))) }
        ensures tells { IfOk result (λ given.
            OfWanted (account_of (the_table K.eq) self.old.layers) (Want.Desk (Visit.Retire ids.now))
            (λ access. Accesses (account_of (the_table K.eq) self.old.layers) access given
            (account_of (the_table K.eq) self.new.layers))) }
        ensures keeps { self.new.calls ≡ self.old.calls }
        // Without memory.
        ensures err { OnErr result (account_of (the_table K.eq) self.new.layers
            ≡ account_of (the_table K.eq) self.old.layers) }
        ensures err_stands { OnErr result ((w : World K V E) → Reaches K.eq T.Tests self.old w
            → Reaches K.eq T.Tests self.new w) }
        ensures err_needs { OnErr result
            (OfWanted (account_of (the_table K.eq) self.old.layers) (Want.Desk (Visit.Retire ids.now))
            (Lacks (Reaches K.eq T.Tests self.old) NeedsMemory)) }
    {
        Ok(self.layers.retire(ids))
    }
}

impl<K: Eq + Hash + Exact, V: Exact, E: Exact, T: Tests<K, V> + Drop> Alone<K, V, E>
    for Machine<K, V, E, T> {}
