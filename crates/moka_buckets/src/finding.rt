//! The node whose pair an operation answers.

ghost use Rattle.std.specs.Prelude.{◌≡◌, cond, None};
ghost use Rattle.moka_buckets.specs.KeyOps.{key_of};
ghost use Rattle.moka_pairs.specs.Keys.{own_by};
ghost use Rattle.moka_buckets.specs.Nodes.{key_in};
ghost use Rattle.moka_buckets.specs.Arrays.{memory_of};
ghost use Rattle.moka_buckets.specs.Tables.{found_at, found_before, found_by, is_look};

use crate::array::Arrays;
use crate::calling::key_of;
use crate::key_op::KeyOp;
use crate::node::Node;
use crate::nodes::node_at;
use crate::words::stored_in;
use moka_words::{Access, Word};

/// The node whose pair the operation answers, if it ends by this access.
pub fn found<K: Eq, V>(
    arrays: &Arrays,
    nodes: &[Node<K, V>],
    operation: &KeyOp<K, V>,
    access: Access,
) -> Option<u64>
    ensures { result ≡ found_by operation.now
        (own_by K.eq (key_in nodes.now) (key_of operation.now)) (memory_of arrays.now) access }
{
    match access {
        Access::LoadWord { array, index } => {
            found_in(nodes, operation, arrays.word(array, index))
        }
        Access::Exchange { from, to, .. } => found_before(from, to),
        _ => None,
    }
}

// The node that an operation which answers what it leaves finds in the word.
fn found_in<K: Eq, V>(nodes: &[Node<K, V>], operation: &KeyOp<K, V>, word: Word) -> Option<u64>
    ensures { result ≡ cond (is_look operation.now)
        (found_at (own_by K.eq (key_in nodes.now) (key_of operation.now)) word) None }
{
    if is_look(operation) {
        found_at(nodes, key_of(operation), word)
    } else {
        None
    }
}

// Whether the operation answers the pair that it leaves.
fn is_look<K, V>(operation: &KeyOp<K, V>) -> bool
    ensures { result ≡ is_look operation.now }
{
    match operation {
        KeyOp::Get { .. } => true,
        KeyOp::InsertOrModify { .. } => false,
        KeyOp::InsertIfAbsent { .. } => true,
        KeyOp::RemoveIf { .. } => false,
    }
}

fn found_at<K: Eq, V>(nodes: &[Node<K, V>], key: &K, word: Word) -> Option<u64>
    ensures { result ≡ found_at (own_by K.eq (key_in nodes.now) key.now) word }
{
    match word {
        Word::Live(node) => {
            if has_key(nodes, node, key) {
                Some(node)
            } else {
                None
            }
        }
        _ => None,
    }
}

/// Whether the node of this number has the key.
pub fn has_key<K: Eq, V>(nodes: &[Node<K, V>], number: u64, key: &K) -> bool
    ensures { result ≡ own_by K.eq (key_in nodes.now) key.now number }
{
    match node_at(nodes, number) {
        None => false,
        Some(node) => *key == node.key,
    }
}

// The node that is there no more once the word was exchanged.
fn found_before(from: Word, to: Word) -> Option<u64>
    ensures { result ≡ found_before from to }
{
    match to {
        Word::Live(_) => stored_in(from),
        Word::Tomb(_) => stored_in(from),
        _ => None,
    }
}
