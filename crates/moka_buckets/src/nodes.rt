//! What the nodes of a table say.

ghost use Rattle.std.specs.Prelude.{◌≡◌, ℕ, ◌<◌, Bool, false, IfOk, OnErr, Option, Some, None, length};
ghost use Rattle.std.specs.Option.{option_copied, option_map, option_map_or};
ghost use Rattle.std.specs.List.{slice_get};
ghost use Rattle.moka_hist.specs.Tables.{answer_of};
ghost use Rattle.moka_words.specs.Words.{node_of, word_at};
ghost use Rattle.moka_words.specs.Effect.{Effect, Memory};
ghost use Rattle.moka_words.specs.declared.accesses.Access.TheVariants as access;
ghost use Rattle.moka_pairs.specs.Keys.{hash_by, own_for};
ghost use Rattle.moka_buckets.specs.Nodes.{Agrees, AreHashed, IsNamed, pair_at};
ghost use Rattle.moka_buckets.specs.declared.node.Node.{Node};

use crate::node::Node;
use crate::words::node_of;
use moka_hist::TableAnswer;
use moka_values::Exact;
use moka_words::{Seen, Word};
use std::alloc::AllocError;

/// The node of this number.
pub fn node_at<K, V>(nodes: &[Node<K, V>], number: u64) -> Option<&Node<K, V>>
    ensures { option_copied result ≡ slice_get nodes.now number }
{
    nodes.get(number as usize)
}

/// The hash and the key of the word's node, as a call with this key sees them, or with none.
pub fn see_word<K: Eq, V>(nodes: &[Node<K, V>], key: Option<&K>, word: Word) -> Seen
    ensures { (hash : K → ℕ) (keys : ℕ → Option K) (m : Memory) (array index : ℕ) →
        AreHashed hash nodes.now → Agrees keys nodes.now → IsNamed nodes.now word →
        word ≡ word_at (m.words array) index →
        Effect (hash_by hash keys) (own_for K.eq keys (option_copied key.entry))
        (access.LoadWord array index) result m m }
{
    match node_of(word) {
        None => Seen::Word {
            word,
            hash: 0,
            same: false,
        },
        Some(number) => see_node(nodes, key, word, number),
    }
}

fn see_node<K: Eq, V>(nodes: &[Node<K, V>], key: Option<&K>, word: Word, number: u64) -> Seen
    requires { node_of word ≡ Some number }
    ensures { (hash : K → ℕ) (keys : ℕ → Option K) (m : Memory) (array index : ℕ) →
        AreHashed hash nodes.now → Agrees keys nodes.now → IsNamed nodes.now word →
        word ≡ word_at (m.words array) index →
        Effect (hash_by hash keys) (own_for K.eq keys (option_copied key.entry))
        (access.LoadWord array index) result m m }
{
    match node_at(nodes, number) {
        None => Seen::Word {
            word,
            hash: 0,
            same: false,
        },
        Some(node) => Seen::Word {
            word,
            hash: node.hash,
            same: is_key(key, node),
        },
    }
}

// Whether the node has the key; none has no key.
fn is_key<K: Eq, V>(key: Option<&K>, node: &Node<K, V>) -> bool
    ensures { result ≡ option_map_or (λ key. K.eq key node.now.key)
        (option_copied key.entry) false }
{
    match key {
        None => false,
        Some(key) => *key == node.key,
    }
}

/// The stored pair of the node, as a clone; of no node None.
pub fn clone_pair<K: Exact, V: Exact>(
    nodes: &[Node<K, V>],
    node: Option<u64>,
) -> Result<TableAnswer<K, V>, AllocError>
    ensures { IfOk result (λ a. a ≡ answer_of (pair_at nodes.now node)) }
{
    let Some(number) = node else {
        return Ok(TableAnswer::None);
    };
    match node_at(nodes, number) {
        None => Ok(TableAnswer::None),
        Some(node) => clone_node(node),
    }
}

fn clone_node<K: Exact, V: Exact>(node: &Node<K, V>) -> Result<TableAnswer<K, V>, AllocError>
    ensures { IfOk result (λ a. a ≡ answer_of (Some (node.now.key, node.now.stored))) }
{
    let key = node.key.clone()?;
    let stored = node.stored.clone()?;
    Ok(TableAnswer::Some { key, stored })
}
