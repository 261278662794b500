//! Layers for a walk.

ghost use Rattle.std.specs.Prelude.{◌≡◌, IfOk};
ghost use Rattle.moka_table.specs.Empty.{IsEmptyTable};
ghost use Rattle.moka_walk_cases.specs.Standing.{Stands};

use crate::NoTests;
use crate::accesses::Below;
use moka_desk::Desk;
use moka_hist::{Rules, Start};
use moka_ids::PcgIds;
use moka_init::Flow;
use moka_table::Table;
use std::alloc::{AllocError, Global};

/// The number of the walk.
const WALK: u64 = 1;

/// A cache without rules.
pub(crate) const RULES: Rules = Rules {
    max_capacity: None,
    time_to_live: None,
    time_to_idle: None,
    listener: false,
    closures: false,
};

/// Layers over the table, which has no key yet, in a cache of these rules.
pub(crate) fn over<C: Drop, T: Table<u32, u32, Call = C> + Drop>(
    alloc: Global,
    rules: Rules,
    table: T,
) -> Result<Below<T, C>, AllocError>
    requires empty { IsEmptyTable T.Table table }
    ensures { IfOk result (λ layers. Stands T.Table layers) }
{
    let desk = Desk::starting_after(alloc, rules, 1, WALK)?;
    Ok(Below {
        table,
        desk,
        call: WALK,
        begun: None,
        tests: NoTests,
        ids: PcgIds::new(0),
    })
}

/// A walk over the layers, which has made no step.
pub(crate) fn walk<C: Drop, T: Table<u32, u32, Call = C> + Drop>(
    layers: &Below<T, C>,
) -> Flow<u32, u32, u32> {
    Flow::new(Start::Iter, WALK, RULES, layers.table.parts())
}
