//! Cases of both tables: what no clause of them says; and two uses of a table without a name.

mod alone;
mod memory;
mod rows;
mod together;
mod uses;

use crate::tables::{Deed, Fold, on_both};
use crate::zeros::Zero;
pub(crate) use alone::one_seat;
pub(crate) use memory::fill;
use std::alloc::{AllocError, Global};
use std::rt::Clock;
use std::sync::Wait;
use std::thread::Threads;
pub(crate) use together::all_together;

/// Tries the case in which memory may be refused. Answers whether it came out right, and that could
/// be told.
pub(crate) fn memory_is_right<R: Threads + Wait + Clock + Print + Eprint + Sync>(
    rt: &R,
    alloc: Global,
) -> bool {
    told(rt, "memory", on_both::<Fold, R>(rt, alloc, Deed::Memory))
}

/// Tries all cases. Answers whether each came out right, and that could be told.
pub(crate) fn all_are_right<R: Threads + Wait + Clock + Print + Eprint + Sync>(
    rt: &R,
    alloc: Global,
) -> bool {
    let memory = memory_is_right(rt, alloc);
    let seats = told(rt, "seats", on_both::<Fold, R>(rt, alloc, Deed::Seats));
    let part = told(rt, "part", on_both::<Zero, R>(rt, alloc, Deed::Seats));
    let share = told(rt, "share", on_both::<Fold, R>(rt, alloc, Deed::Share));
    let uses = told(rt, "uses", uses::are_right(rt, alloc));
    memory && seats && part && share && uses
}

/// Prints how the case of this name came out, and answers whether it came out right. Of one whose
/// table got no memory nothing is printed.
fn told<R: Print>(rt: &R, name: &str, outcome: Result<bool, AllocError>) -> bool {
    let Ok(is_right) = outcome else {
        return false;
    };
    let how = if is_right { "right" } else { "wrong" };
    println!(rt; "{name} {how}").is_ok() && is_right
}
