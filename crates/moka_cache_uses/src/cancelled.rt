//! A call that is cancelled while another waits for it.

use crate::answers::Runtime;
use crate::sources::After;
use futures::FutureExt;
use futures::executor::block_on;
use futures::future::{Either, join, select};
use moka_cache::{Cache, PollError, Polled, State};
use std::alloc::Global;
use std::io;

/// Runs a call that is dropped after two polls beside one that is not. It tells whether the first
/// answered, and what the second did.
fn beside_dropped<R: Runtime, A, B>(
    rt: &R,
    dropped: A,
    other: B,
) -> io::Result<(bool, Result<B::Output, PollError>)>
where
    A: State<R, Output: Drop>,
    B: State<R, Output: Drop>,
    requires dropped { A.can_poll dropped }
    requires other { B.can_poll other }
{
    let time = After {
        polls: 1,
        gives: (),
    };
    let first = select(Polled::new(rt, dropped, 0), time);
    let has_answered = first.map(|first| matches!(first, Either::Left(_)));
    block_on(rt, join(has_answered, Polled::new(rt, other, 0)))
}

/// Loads key 1 twice at once, and drops the load that owns the key: the one that waits for it
/// becomes the owner, and its source is asked.
pub(crate) fn show<R: Runtime>(rt: &R, alloc: Global) -> io::Result<()> {
    let cache: Cache<u32, u32> = Cache::new(alloc, 100)?;
    let owner = cache.get_with(1, After { polls: 9, gives: 5 });
    let waiter = cache.get_with(1, After { polls: 0, gives: 6 });
    let (has_answered, waiter) = beside_dropped(rt, owner, waiter)?;
    println!(rt; "cancelled: the owner answered {has_answered}, its waiter {waiter:?}")
}
