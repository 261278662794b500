//! A change that is asked for.
ghost use Rattle.std.specs.Prelude.{◌≡◌, ℕ, None};
ghost use Rattle.moka_parts.specs.Asks.{asked_change};
ghost use Rattle.moka_parts.specs.Changes.{change_of};
ghost use Rattle.moka_parts.specs.Pairs.{pair_at};

use crate::held::Held;
use logbook::Pen;
use std::collections::HashMap;
use std::hash::{BuildHasher, Hash};

/// The change of a step, as it lies in the memory of its caller: the key, what is put there, and
/// the map before the change, which has the former pair. So no step looks the former pair up.
#[derive(Drop)]
pub(crate) struct Asked<'a, K: Eq + Hash, V, S: BuildHasher> {
    pub(crate) key: &'a K,
    pub(crate) put: Option<&'a V>,
    pub(crate) map: &'a HashMap<K, Held<K, V>, S>,
}

/// The change of a step, with the ticket that is spent on it, and the ticket that its seat has next.
#[derive(Drop)]
pub(crate) struct Ticketed<'a, 'b, K: Eq + Hash, V, S: BuildHasher> {
    pub(crate) asked: &'a Asked<'b, K, V, S>,
    pub(crate) ticket: &'a Pen,
    pub(crate) next: &'a Pen,
}

impl<'a, K: Eq + Hash, V, S: BuildHasher> Asked<'a, K, V, S> {
    /// The change that takes the pair at the key out.
    pub(crate) fn out(key: &'a K, map: &'a HashMap<K, Held<K, V>, S>) -> Self
        ensures { (spent next : ℕ) → asked_change K.eq spent next result
            ≡ change_of spent next key.now None (pair_at K.eq map.now key.now) }
    {
        Asked {
            key,
            put: None,
            map,
        }
    }
}
