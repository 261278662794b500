//! The accesses of a walk, on layers over any table.

ghost use Rattle.std.specs.Prelude.{◌≡◌, None, IsSome};
ghost use Rattle.moka_walk_cases.specs.Standing.{Stands};

use crate::NoTests;
use moka_hist::{Found, Got, Stored, TableOp, Visit, Want};
use moka_layers::Layers;
use moka_table::Table;
use std::alloc::AllocError;

/// Layers on which a walk over numbers goes.
pub(crate) type Below<T, C> = Layers<u32, u32, u32, T, C, NoTests>;

/// What a walk's access gives.
pub(crate) type Given = Got<u32, u32, u32>;

// Begins the operation.
fn begin<C: Drop, T: Table<u32, u32, Call = C> + Drop>(
    layers: &mut Below<T, C>,
    operation: TableOp<u32, u32>,
) -> Result<Given, AllocError>
    requires stands { Stands T.Table layers.old }
    requires none { layers.old.begun ≡ None }
    ensures stands { Stands T.Table layers.new }
{
    layers.access(Want::Begin(operation))
}

// Goes on with the operation that was begun.
fn resume<C: Drop, T: Table<u32, u32, Call = C> + Drop>(
    layers: &mut Below<T, C>,
) -> Result<Given, AllocError>
    requires stands { Stands T.Table layers.old }
    requires begun { IsSome layers.old.begun }
    ensures stands { Stands T.Table layers.new }
{
    layers.access(Want::Table)
}

// Judges the record.
fn scan<C: Drop, T: Table<u32, u32, Call = C> + Drop>(
    layers: &mut Below<T, C>,
    key: u32,
    stored: Stored<u32>,
) -> Result<Given, AllocError>
    requires stands { Stands T.Table layers.old }
    requires none { layers.old.begun ≡ None }
    ensures stands { Stands T.Table layers.new }
{
    layers.access(Want::Desk(Visit::Scan { key, stored }))
}

// Makes the access, where nothing was begun. The end of a walk after its last item reads the clock, which
// stands at 0 here: it needs nothing of the layers.
fn serve_first<C: Drop, T: Table<u32, u32, Call = C> + Drop>(
    layers: &mut Below<T, C>,
    want: Want<u32, u32, u32>,
) -> Result<Option<Given>, AllocError>
    requires stands { Stands T.Table layers.old }
    requires none { layers.old.begun ≡ None }
    ensures stands { Stands T.Table layers.new }
{
    match want {
        Want::Begin(operation) => some(begin(layers, operation)),
        Want::Desk(Visit::Scan { key, stored }) => some(scan(layers, key, stored)),
        Want::Desk(Visit::Clock { .. }) => Ok(Some(Got::Desk(Found::Clock(0)))),
        other => {
            drop(other);
            Ok(None)
        }
    }
}

/// Makes the access. Answers None, and makes none, where it isn't one of a walk that stands there.
pub(crate) fn serve<C: Drop, T: Table<u32, u32, Call = C> + Drop>(
    layers: &mut Below<T, C>,
    want: Want<u32, u32, u32>,
) -> Result<Option<Given>, AllocError>
    requires stands { Stands T.Table layers.old }
    ensures stands { Stands T.Table layers.new }
{
    if layers.begun.is_none() {
        return serve_first(layers, want);
    }
    match want {
        Want::Table => some(resume(layers)),
        other => {
            drop(other);
            Ok(None)
        }
    }
}

fn some(given: Result<Given, AllocError>) -> Result<Option<Given>, AllocError> {
    match given {
        Ok(given) => Ok(Some(given)),
        Err(e) => Err(e),
    }
}
