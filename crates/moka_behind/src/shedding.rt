//! Taking every record out.
ghost use Rattle.std.specs.Prelude.{◌≡◌, ℕ, [], None, IfOk, OnOk};
ghost use Rattle.moka_keepers.specs.Writes.{Pairs};
ghost use Rattle.moka_behind.specs.Evicting.{Evicts, HoldsPairs};
ghost use Rattle.moka_behind.specs.Holding.{Holds, IsOpen, IsReady};
ghost use Rattle.moka_behind.specs.Looking.{CountsKeys};

use crate::pairs::{Cache, run};
use moka_hist::{Cause, Start, Stored};
use std::alloc::{AllocError, Global};

/// Takes every record out, each as one chosen for its size, and answers how many there were.
pub(crate) fn shed(pairs: &mut Cache, alloc: Global) -> Result<u64, AllocError>
    requires { IsReady pairs.old }
    ensures empty { OnOk result ((ps : Pairs) → Holds pairs.old ps
        → Holds pairs.new (λ key. None)) }
    ensures count { IfOk result (λ count. (ps : Pairs) → Holds pairs.old ps → CountsKeys ps count) }
{
    let entries = pairs.entries(alloc)?;
    evict_all(pairs, entries.as_slice())?;
    Ok(entries.len() as u64)
}

// Takes all the records out that there are.
fn evict_all(pairs: &mut Cache, entries: &[(u32, Stored<u32>)]) -> Result<(), AllocError>
    requires { HoldsPairs pairs.old entries.now }
    ensures { OnOk result (HoldsPairs pairs.new []) }
{
    for entry in entries {
        evict(pairs, entry.0, entry.1.stamp)?;
    }
    Ok(())
}

// Takes the record of this stamp out, as one chosen for its size.
fn evict(pairs: &mut Cache, key: u32, stamp: u64) -> Result<(), AllocError>
    requires { IsOpen pairs.old }
    ensures { OnOk result (Evicts pairs.old key stamp pairs.new) }
{
    let start = Start::Evict {
        key,
        stamp,
        cause: Cause::Size,
    };
    let _evicted = run(pairs, start)?;
    Ok(())
}
