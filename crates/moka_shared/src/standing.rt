//! What stands under a key.
ghost use Rattle.std.specs.Prelude.{◌≡◌, ◌<◌, Some};
ghost use Rattle.moka_words.specs.Words.{stored_in};
ghost use Rattle.moka_shared.specs.Changes.{HereSo, IsCopy, Stands};
ghost use Rattle.moka_shared.specs.Hashing.{hash_in, place_in, segment_of};
ghost use Rattle.moka_shared.specs.Meeting.{IsShown};
ghost use Rattle.moka_shared.specs.Probing.{EndsAt, IsLogOf};
ghost use Rattle.moka_shared.specs.Tables.{names_of};

use crate::Fact;
use crate::book::Law;
use crate::node::Node;
use crate::put::Gap;
use crate::table::HashMap;
use logbook::Seen;
use moka_history::Note;
use moka_shelf::Shelf;
use moka_values::Exact;
use std::hash::{BuildHasher, Hash};

/// The value that stands under a key.
#[derive(Drop)]
pub(crate) enum Standing<V> {
    /// This is it.
    Here(V),
    /// Memory is wanting for a copy.
    Memory,
}

fn copy_of<V: Exact>(value: &V) -> Standing<V>
    ensures { IsCopy value.now result }
{
    match value.clone() {
        Ok(copy) => Standing::Here(copy),
        Err(_) => Standing::Memory,
    }
}

impl<K: Eq + Hash, V: Exact, S: BuildHasher, P: Fact<K, V>, L: Shelf<Node<K, V, S, P>>> HashMap<
    K,
    V,
    S,
    P,
    L,
> {
    /// A copy of the value of this node, under which the key stands where a probe ended.
    pub(crate) fn standing(
        &self,
        front: &Seen<Note<K, V, S>, u64, Law>,
        key: &K,
        gap: &Gap,
        number: u64,
        node: Option<&Node<K, V, S, P>>,
    ) -> Standing<V>
        requires book { front.now.book ≡ self.now.book }
        requires log { IsLogOf K.eq (hash_in S.BuildHasher S.Hasher.Hasher K.hash_input)
            (place_in S.BuildHasher S.Hasher.Hasher K.hash_input) self.now front.now.log }
        requires hash { gap.now.hash ≡ hash_in S.BuildHasher S.Hasher.Hasher K.hash_input
            self.now.hasher key.now }
        requires below { segment_of self.now.segments gap.now.hash < self.now.segments }
        requires ends { EndsAt K.eq (place_in S.BuildHasher S.Hasher.Hasher K.hash_input)
            self.now key.now gap.now.hash front.now.log gap.now.passed gap.now.word }
        requires stored { stored_in gap.now.word ≡ Some number }
        requires node { IsShown (names_of self.now.book) number node }
        ensures fact { HereSo (P.holds key.now) result }
        ensures stands { Stands K.eq key.now number front.now.log result }
    {
        let _key = key;
        let _gap = gap;
        let _number = number;
        match node {
            Some(node) => {
                node.is_named(front);
                copy_of(node.value())
            }
            None => unreachable!(),
        }
    }
}
