//! The room of a hash map.

ghost use Rattle.std.specs.Prelude.{◌≤◌, min, OnOk};
ghost use Rattle.std.specs.HashMap.{spare, IsReordered};

use crate::{FEW, fewer};
use std::alloc::AllocError;
use std::collections::HashMap;
use std::hash::{BuildHasher, Hash};

/// Makes room for so many more entries, and gives back what is far more than that.
#[inline(always)]
pub fn reserve<K: Eq + Hash, V, S: BuildHasher>(
    map: &mut HashMap<K, V, S>,
    room: usize,
) -> Result<(), AllocError>
    ensures entries { IsReordered K.eq map.old map.new }
    ensures ok { OnOk result (room ≤ spare map.new) }
    ensures kept { min room (spare map.old) ≤ spare map.new }
{
    map.reserve(room)?;
    give_back(map, room);
    Ok(())
}

/// Makes room for so many more entries of a map whose keys come and go, so that at most half of its
/// places are in use. So it takes back the places of keys that went where it lies, and never grows
/// for them. `places` is how many it had when it last grew or was made smaller, 0 of a new map. Gives back
/// what is far more than that.
#[inline(always)]
pub fn reserve_half<K: Eq + Hash, V, S: BuildHasher>(
    map: &mut HashMap<K, V, S>,
    places: &mut usize,
    room: usize,
) -> Result<(), AllocError>
    ensures entries { IsReordered K.eq map.old map.new }
    ensures ok { OnOk result (room ≤ spare map.new) }
    ensures kept { min room (spare map.old) ≤ spare map.new }
{
    let needed = map.len().saturating_add(room);
    if *places / 2 < needed {
        map.reserve(needed.saturating_add(room))?;
        *places = map.capacity();
        return Ok(());
    }
    map.reserve(room)?;
    if *places > FEW && needed < *places / 8 {
        shrink(map, room);
        *places = map.capacity();
    }
    Ok(())
}

/// Gives places back where there are many, and under an eighth of them is in use or wanted for so
/// many more entries: twice as many as that stay. Where there is no memory for the smaller map it
/// stays as it is.
#[inline(always)]
pub fn give_back<K: Eq + Hash, V, S: BuildHasher>(map: &mut HashMap<K, V, S>, room: usize)
    requires { room ≤ spare map.old }
    ensures entries { IsReordered K.eq map.old map.new }
    ensures room { room ≤ spare map.new }
{
    if map.capacity() > FEW && map.len() + room < map.capacity() / 8 {
        shrink(map, room);
    }
}

// Gives places of a map back that has many.
#[inline(never)]
fn shrink<K: Eq + Hash, V, S: BuildHasher>(map: &mut HashMap<K, V, S>, room: usize)
    requires { room ≤ spare map.old }
    ensures entries { IsReordered K.eq map.old map.new }
    ensures room { room ≤ spare map.new }
{
    if let Some(places) = fewer(map.capacity(), map.len() + room) {
        map.shrink_to(places);
    }
}
