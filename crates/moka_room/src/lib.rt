//! Room of std's collections: made as it is asked for, and given back once few places are in use.
#![tactic(auto)]

ghost use Rattle.std.specs.Prelude.{◌≡◌, ◌≤◌, ◌+◌, ◌*◌, IfSome, IfNone};

pub mod deque_room;
pub mod map_room;
pub mod set_room;
pub mod vec_room;

use std::hash::{BuildHasherDefault, FoldHasher};

/// The hasher that std's maps have by default. Its seed is fixed: who picks keys can pick such that
/// fall together.
pub type FixedSeed = BuildHasherDefault<FoldHasher>;

/// A collection of no more places than this keeps them all.
const FEW: usize = 1024;

/// How many places are to stay of many, where so many are in use or wanted: twice these, if they are
/// under an eighth of all; None if all stay.
fn fewer(places: usize, needed: usize) -> Option<usize>
    ensures fewer { IfSome result (λ fewer. (fewer ≡ needed + needed) × (fewer ≤ places)) }
    ensures stay { IfNone result (places ≤ 8 * needed + 7) }
{
    if needed < places / 8 {
        return Some(needed * 2);
    }
    None
}
