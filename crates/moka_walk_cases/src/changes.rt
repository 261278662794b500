//! Operations that are made whole, beside what a walk has begun.

ghost use Rattle.std.specs.Prelude.{◌≡◌, ℕ};
ghost use Rattle.moka_walk_cases.specs.Standing.{MayGoOn, Stands};

use crate::accesses::Below;
use moka_hist::{Stored, TableOp, TableTurn};
use moka_table::Table;

/// No operation here takes as many steps.
const MOST: u32 = 10_000_000;

/// Stores the value under the key, stamped by it.
pub(crate) fn insert(key: u32, value: u32) -> TableOp<u32, u32> {
    TableOp::InsertOrModify {
        key,
        stored: Stored {
            value,
            stamp: u64::from(value),
            modified: 0,
        },
    }
}

/// Takes the key out.
pub(crate) fn remove(key: u32) -> TableOp<u32, u32> {
    TableOp::RemoveIf { key, stamp: None }
}

// Makes the operation whole; where memory is wanting, a step is made anew. Answers whether it ended.
fn change_table<C: Drop, T: Table<u32, u32, Call = C> + Drop>(
    table: &mut T,
    begun: &Option<C>,
    operation: TableOp<u32, u32>,
) -> bool
    requires goes { MayGoOn T.Table table.old begun.now }
    ensures goes { MayGoOn T.Table table.new begun.now }
    ensures first { T.first table.new ≡ T.first table.old }
    ensures parts { T.divided table.new ≡ T.divided table.old }
    ensures part_of { (q : ℕ) → T.part_of table.new q ≡ T.part_of table.old q }
{
    let mut call = table.begin(operation);
    for _ in 0..MOST {
        match table.step(&mut call) {
            Ok(TableTurn::Decided(answer)) => {
                drop(answer);
                return true;
            }
            Ok(TableTurn::Going) => {}
            Err(_) => {}
        }
    }
    false
}

/// Makes the operation whole, beside what the walk has begun. Answers whether it ended.
pub(crate) fn change<C: Drop, T: Table<u32, u32, Call = C> + Drop>(
    layers: &mut Below<T, C>,
    operation: TableOp<u32, u32>,
) -> bool
    requires stands { Stands T.Table layers.old }
    ensures stands { Stands T.Table layers.new }
{
    change_table(&mut layers.table, &layers.begun, operation)
}
