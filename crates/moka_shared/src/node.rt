//! A key and a value, as they lie on the shelf of a table.
ghost use Rattle.std.specs.Prelude.{◌≡◌, ◌<◌, Some, length};
ghost use Rattle.moka_history.specs.Logs.{state_of};
ghost use Rattle.moka_shared.specs.Tables.{names_of};

use crate::Fact;
use crate::book::Law;
use boxcar::tag::{Names, Tag};
use logbook::Seen;
use moka_history::Note;
use moka_shelf::Numbered;
use std::hash::{BuildHasher, Hash};
use std::marker::{Model, PhantomData};

/// A key and a value, and the number under which the history names them. It never changes, and
/// stays until its table is closed. Contracts see what it is a node of.
#[derive(Drop)]
pub struct Node<K: Eq + Hash, V, S: BuildHasher, P: Fact<K, V>> {
    key: K,
    value: V,
    number: Tag,
    seen: Seen<Note<K, V, S>, u64, Law>,
    of: PhantomData<P>,
}

impl<K: Eq + Hash, V, S: BuildHasher, P: Fact<K, V>> Model for Node<K, V, S, P> {
    ghost use Rattle.boxcar.specs.Table.{first};
    ghost use Rattle.moka_shared.specs.Nodes.{IsNode, NodeView};
    ghost use Rattle.moka_shared.specs.Tables.{names_of};

    ghost Value = { NodeView K V S };

    ghost view = { λ n. record {
      number = first n.number.numbers;
      pair = (n.key, n.value);
      names = names_of n.seen.book;
      log = n.seen.log;
    } };

    ghost invariant = { λ n. IsNode P.holds record {
      number = first n.number.numbers;
      pair = (n.key, n.value);
      names = names_of n.seen.book;
      log = n.seen.log;
    } };
}

impl<K: Eq + Hash, V, S: BuildHasher, P: Fact<K, V>> Numbered for Node<K, V, S, P> {
    ghost number = { λ n. n.number };

    ghost names = { λ n. n.names };
}

struct Itself;

impl Names<u64> for Itself {
    ghost use Rattle.std.specs.Prelude.{[], ◌∷◌};

    ghost numbers = { λ n. n ∷ [] };
}

impl<K: Eq + Hash, V, S: BuildHasher, P: Fact<K, V>> Node<K, V, S, P> {
    /// The node of a pair that the history names under the number, as it was seen.
    pub(crate) fn new(key: K, value: V, number: u64, front: &Seen<Note<K, V, S>, u64, Law>) -> Self
        requires some { 0 < length front.now.log }
        requires named { (state_of front.now.log).pairs number ≡ Some (key, value) }
        requires fact { P.holds key value }
        ensures number { result.number ≡ number }
        ensures names { result.names ≡ names_of front.now.book }
    {
        Node {
            key,
            value,
            number: Tag::of::<u64, Itself>(&number),
            seen: front.again(),
            of: PhantomData,
        }
    }

    /// The key.
    pub(crate) fn key(&self) -> &K
        ensures { result.now ≡ self.now.pair.0 }
    {
        &self.key
    }

    /// The value.
    pub(crate) fn value(&self) -> &V
        ensures { result.now ≡ self.now.pair.1 }
    {
        &self.value
    }

    /// The pair that a history names under the node's number is the node's.
    pub(crate) fn is_named(&self, front: &Seen<Note<K, V, S>, u64, Law>)
        requires names { self.now.names ≡ names_of front.now.book }
        requires some { 0 < length front.now.log }
        ensures pair { (p : K × V) → (state_of front.now.log).pairs self.now.number ≡ Some p
            → p ≡ self.now.pair }
        ensures fact { P.holds self.now.pair.0 self.now.pair.1 }
    {
        let mut both = front.again();
        both.learn(&self.seen);
    }
}
