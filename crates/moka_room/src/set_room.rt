//! The room of a hash set.

ghost use Rattle.std.specs.Prelude.{◌≤◌, min, OnOk};
ghost use Rattle.std.specs.HashSet.{spare, IsReordered};

use crate::{FEW, fewer};
use std::alloc::AllocError;
use std::collections::HashSet;
use std::hash::Hash;

/// Makes room for so many more keys, and gives back what is far more than that.
#[inline(always)]
pub fn reserve<K: Eq + Hash>(set: &mut HashSet<K>, room: usize) -> Result<(), AllocError>
    ensures keys { IsReordered K.eq set.old set.new }
    ensures ok { OnOk result (room ≤ spare set.new) }
    ensures kept { min room (spare set.old) ≤ spare set.new }
{
    set.reserve(room)?;
    give_back(set, room);
    Ok(())
}

/// Makes room for so many more keys of a set whose keys come and go, so that at most half of its
/// places are in use. So it takes back the places of keys that went where it lies, and never grows
/// for them. `places` is how many it had when it last grew or was made smaller, 0 of a new set. Gives back
/// what is far more than that.
#[inline(always)]
pub fn reserve_half<K: Eq + Hash>(
    set: &mut HashSet<K>,
    places: &mut usize,
    room: usize,
) -> Result<(), AllocError>
    ensures keys { IsReordered K.eq set.old set.new }
    ensures ok { OnOk result (room ≤ spare set.new) }
    ensures kept { min room (spare set.old) ≤ spare set.new }
{
    let needed = set.len().saturating_add(room);
    if *places / 2 < needed {
        set.reserve(needed.saturating_add(room))?;
        *places = set.capacity();
        return Ok(());
    }
    set.reserve(room)?;
    if *places > FEW && needed < *places / 8 {
        shrink(set, room);
        *places = set.capacity();
    }
    Ok(())
}

/// Gives places back where there are many, and under an eighth of them is in use or wanted for so
/// many more keys: twice as many as that stay. Where there is no memory for the smaller set it
/// stays as it is.
#[inline(always)]
pub fn give_back<K: Eq + Hash>(set: &mut HashSet<K>, room: usize)
    requires { room ≤ spare set.old }
    ensures keys { IsReordered K.eq set.old set.new }
    ensures room { room ≤ spare set.new }
{
    if set.capacity() > FEW && set.len() + room < set.capacity() / 8 {
        shrink(set, room);
    }
}

// Gives places of a set back that has many.
#[inline(never)]
fn shrink<K: Eq + Hash>(set: &mut HashSet<K>, room: usize)
    requires { room ≤ spare set.old }
    ensures keys { IsReordered K.eq set.old set.new }
    ensures room { room ≤ spare set.new }
{
    if let Some(places) = fewer(set.capacity(), set.len() + room) {
        set.shrink_to(places);
    }
}
