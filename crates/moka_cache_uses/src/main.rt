//! The program: uses of the cache that tasks poll, each a few lines, and what they answer.
#![tactic(auto)]

mod answers;
mod cancelled;
mod computes;
mod counter;
mod first;
mod heard;
mod letters;
mod loads;
mod memo;
mod own;
mod pages;
mod settings;
mod shares;
mod sources;

use crate::answers::Runtime;
use std::alloc::Global;
use std::io;

fn main(rt: HostRuntime) -> io::Result<()> {
    show_all(&rt, rt.alloc())
}

/// Runs each use in a cache of its own, and prints what it answers.
fn show_all<R: Runtime>(rt: &R, alloc: Global) -> io::Result<()> {
    first::show(rt, alloc)?;
    memo::show(rt, alloc)?;
    settings::show(rt, alloc)?;
    pages::show(rt, alloc)?;
    counter::show(rt, alloc)?;
    heard::show(rt, alloc)?;
    shares::show(rt, alloc)?;
    letters::show(rt, alloc)?;
    cancelled::show(rt, alloc)?;
    loads::show(rt, alloc)?;
    computes::show(rt, alloc)?;
    own::show(rt, alloc)
}
