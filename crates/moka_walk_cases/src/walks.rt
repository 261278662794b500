//! The steps of a walk.

ghost use Rattle.std.specs.Bool.{OnTrue};
ghost use Rattle.moka_walk_cases.specs.Standing.{Stands};
ghost use Rattle.moka_walk_cases.specs.Wants.{FitsWalk};

use crate::accesses::{Below, Given, serve};
use moka_hist::{Found, Got, Turn, Visit, Want};
use moka_init::Flow;
use moka_table::Table;
use std::alloc::AllocError;

// Whether this is what a walk's access gives.
fn fits(want: &Want<u32, u32, u32>, given: &Given) -> bool
    ensures { OnTrue result (FitsWalk want.now given.now) }
{
    match want {
        Want::Begin(_) => matches!(given, Got::Table(_)),
        Want::Table => matches!(given, Got::Table(_)),
        Want::Desk(Visit::Scan { .. }) => matches!(given, Got::Desk(Found::Scan(_))),
        Want::Desk(Visit::Clock { .. }) => matches!(given, Got::Desk(Found::Clock(_))),
        Want::Desk(_) => false,
    }
}

/// Makes a step of the walk. Answers None where it has ended, or wants what no walk does. Without
/// memory nothing has changed.
pub(crate) fn step<C: Drop, T: Table<u32, u32, Call = C> + Drop>(
    flow: &mut Flow<u32, u32, u32>,
    layers: &mut Below<T, C>,
) -> Result<Option<Turn<u32, u32, u32>>, AllocError>
    requires stands { Stands T.Table layers.old }
    ensures stands { Stands T.Table layers.new }
{
    if flow.has_answered() {
        return Ok(None);
    }
    let want = flow.want()?;
    let again = flow.want()?;
    let Some(given) = serve(layers, again)? else {
        drop(want);
        return Ok(None);
    };
    let fits = fits(&want, &given);
    drop(want);
    if !fits {
        drop(given);
        return Ok(None);
    }
    Ok(Some(flow.take(given)))
}
