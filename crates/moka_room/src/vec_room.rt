//! The room of a vector.

ghost use Rattle.std.specs.Prelude.{◌≡◌, ◌≤◌, ◌+◌, min, OnOk, vec_len, vec_capacity};

use crate::{FEW, fewer};
use std::alloc::AllocError;

/// Makes room for so many more items, and gives back what is far more than that.
#[inline(always)]
pub fn reserve<T>(list: &mut Vec<T>, room: usize) -> Result<(), AllocError>
    ensures items { list.new.items ≡ list.old.items }
    ensures ok { OnOk result (vec_len list.new + room ≤ vec_capacity list.new) }
    ensures kept { min (vec_len list.old + room) (vec_capacity list.old) ≤ vec_capacity list.new }
{
    list.reserve(room)?;
    give_back(list, room);
    Ok(())
}

/// Gives places back where there are many, and under an eighth of them is in use or wanted for so
/// many more items: twice as many as that stay. Where there is no memory for the smaller vector it
/// stays as it is.
#[inline(always)]
pub fn give_back<T>(list: &mut Vec<T>, room: usize)
    requires { vec_len list.old + room ≤ vec_capacity list.old }
    ensures items { list.new.items ≡ list.old.items }
    ensures room { vec_len list.old + room ≤ vec_capacity list.new }
{
    if list.capacity() > FEW && list.len() + room < list.capacity() / 8 {
        shrink(list, room);
    }
}

// Gives places of a vector back that has many.
#[inline(never)]
fn shrink<T>(list: &mut Vec<T>, room: usize)
    requires { vec_len list.old + room ≤ vec_capacity list.old }
    ensures items { list.new.items ≡ list.old.items }
    ensures room { vec_len list.old + room ≤ vec_capacity list.new }
{
    if let Some(places) = fewer(list.capacity(), list.len() + room) {
        list.shrink_to(places);
    }
}
