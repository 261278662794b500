//! Sums of what threads count.
ghost use Rattle.std.specs.Prelude.{ℕ};

use std::alloc::{AllocError, Global};
use std::thread;
use std::thread::Threads;

/// The sum of what so many threads count at once.
pub(crate) fn total<F: Fn(usize) -> u64 + Sync, R: Threads + Sync>(
    rt: &R,
    alloc: Global,
    threads: usize,
    count: &F,
) -> Result<u64, AllocError>
    requires { (thread : ℕ) → F.pre count.now thread }
{
    let counts = thread::map_indices(rt, alloc, threads, count)?;
    let mut sum = 0u64;
    for counted in &counts {
        sum = sum.wrapping_add(*counted);
    }
    Ok(sum)
}
