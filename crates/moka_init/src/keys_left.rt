//! A list of keys, and a place in it.

ghost use Rattle.std.specs.Prelude.{◌≡◌, [], ◌∷◌, MatchOption};

use moka_hist::KeyList;
use std::marker::Model;
use std::vec::IntoIter;

/// The keys of a list that were not handed out yet, in its order. It keeps that list and a place in
/// it: no key goes into another list.
#[derive(Drop)]
pub struct KeysLeft<K> {
    keys: IntoIter<K>,
}

impl<K> Model for KeysLeft<K> {
    ghost use Rattle.std.specs.Prelude.{◌≡◌, List, length};
    ghost use Rattle.std.specs.Vec.Iter.{into_iter_items, into_iter_len};

    ghost Value = { List K };

    ghost view = { λ l. into_iter_items l.keys };

    ghost invariant = { λ l. into_iter_len l.keys ≡ length (into_iter_items l.keys) };
}

impl<K> KeysLeft<K> {
    /// Stands before the list's first key.
    pub(crate) fn new(keys: KeyList<K>) -> Self
        ensures { result ≡ keys }
    {
        KeysLeft {
            keys: keys.into_vec().into_iter(),
        }
    }

    /// Hands out the next key, if there is one.
    pub(crate) fn next(&mut self) -> Option<K>
        ensures { MatchOption result (self.old ≡ []) (λ key. self.old ≡ key ∷ self.new) }
    {
        self.keys.next()
    }
}
