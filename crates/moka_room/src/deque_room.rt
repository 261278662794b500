//! The room of a queue.

ghost use Rattle.std.specs.Prelude.{◌≡◌, ◌≤◌, ◌+◌, min, OnOk};
ghost use Rattle.std.specs.VecDeque.{deque_len, deque_capacity};

use crate::{FEW, fewer};
use std::alloc::AllocError;
use std::collections::VecDeque;

/// Makes room for so many more items, and gives back what is far more than that.
#[inline(always)]
pub fn reserve<T>(queue: &mut VecDeque<T>, room: usize) -> Result<(), AllocError>
    ensures items { queue.new.items ≡ queue.old.items }
    ensures ok { OnOk result (deque_len queue.new + room ≤ deque_capacity queue.new) }
    ensures kept { min (deque_len queue.old + room) (deque_capacity queue.old)
        ≤ deque_capacity queue.new }
{
    queue.reserve(room)?;
    give_back(queue, room);
    Ok(())
}

/// Gives places back where there are many, and under an eighth of them is in use or wanted for so
/// many more items: twice as many as that stay. Where there is no memory for the smaller queue it
/// stays as it is.
#[inline(always)]
pub fn give_back<T>(queue: &mut VecDeque<T>, room: usize)
    requires { deque_len queue.old + room ≤ deque_capacity queue.old }
    ensures items { queue.new.items ≡ queue.old.items }
    ensures room { deque_len queue.old + room ≤ deque_capacity queue.new }
{
    if queue.capacity() > FEW && queue.len() + room < queue.capacity() / 8 {
        shrink(queue, room);
    }
}

// Gives places of a queue back that has many.
#[inline(never)]
fn shrink<T>(queue: &mut VecDeque<T>, room: usize)
    requires { deque_len queue.old + room ≤ deque_capacity queue.old }
    ensures items { queue.new.items ≡ queue.old.items }
    ensures room { deque_len queue.old + room ≤ deque_capacity queue.new }
{
    if let Some(places) = fewer(queue.capacity(), queue.len() + room) {
        queue.shrink_to(places);
    }
}
