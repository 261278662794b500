//! Writes made on a map.

ghost use Rattle.std.specs.Prelude.{◌≡◌, ℕ, nat_eq, OnOk, OnErr};
ghost use Rattle.std.specs.HashMap.{get};
ghost use Rattle.moka_hist.specs.Finite.{put_at};

use moka_room::map_room;
use std::alloc::AllocError;
use std::collections::HashMap;

/// Puts the value under the key, or takes the key out where there is none, and gives room back of
/// which far less is used. Only a put of a new key needs memory; where there is none, nothing
/// changes.
pub(crate) fn change(
    map: &mut HashMap<u32, u32>,
    key: u32,
    value: Option<u32>,
) -> Result<(), AllocError>
    ensures made { OnOk result ((q : ℕ) → get nat_eq map.new q
        ≡ put_at (get nat_eq map.old) key value q) }
    ensures stays { OnErr result ((q : ℕ) → get nat_eq map.new q ≡ get nat_eq map.old q) }
{
    match value {
        Some(value) => store(map, key, value),
        None => {
            map.remove(&key);
            map_room::give_back(map, 0);
            Ok(())
        }
    }
}

// Puts the value under the key.
fn store(map: &mut HashMap<u32, u32>, key: u32, value: u32) -> Result<(), AllocError>
    ensures made { OnOk result ((q : ℕ) → get nat_eq map.new q
        ≡ put_at (get nat_eq map.old) key (Some value) q) }
    ensures stays { OnErr result ((q : ℕ) → get nat_eq map.new q ≡ get nat_eq map.old q) }
{
    map.insert(key, value)?;
    Ok(())
}
