//! Listing the live keys of an array.

ghost use Rattle.std.specs.Prelude.{◌≡◌, IfOk};
ghost use Rattle.std.specs.Option.{option_copied, option_map};
ghost use Rattle.std.specs.Map.{keys_of};
ghost use Rattle.moka_words.specs.Words.{stored_in};
ghost use Rattle.moka_cht.specs.Nodes.{AllKept, IsKept, pair_in};
ghost use Rattle.moka_cht.specs.Buckets.{live_in, pair_at};
ghost use Rattle.moka_cht.specs.Calls.{ListsCalls};

use crate::node::Node;
use moka_words::Word;
use std::alloc::{AllocError, Global};

/// Lists what `with_key` makes of each stored key, in the order of the buckets.
pub fn list_keys<K, V, T: Drop, F: FnMut(&K) -> T>(
    alloc: Global,
    words: &[Word],
    nodes: &[Node<K, V>],
    mut with_key: F,
) -> Result<Vec<T>, AllocError>
    requires callable { F.IsAlwaysCallable with_key }
    requires kept { AllKept nodes.now words.now }
    ensures { IfOk result (λ keys. ListsCalls F.FnMut with_key
        (keys_of (live_in nodes.now words.now)) keys.items) }
{
    let mut keys = Vec::new(alloc);
    for word in words {
        let Some(key) = live_key(nodes, *word) else {
            continue;
        };
        keys.push(with_key(key))?;
    }
    Ok(keys)
}

// The key of a live word.
fn live_key<K, V>(nodes: &[Node<K, V>], word: Word) -> Option<&K>
    requires { IsKept nodes.now word }
    ensures { option_copied result ≡ option_map (λ p. p.0) (pair_at nodes.now (stored_in word)) }
{
    match word {
        Word::Live(node) => pair_key(&nodes[node as usize]),
        _ => None,
    }
}

fn pair_key<K, V>(node: &Node<K, V>) -> Option<&K>
    ensures { option_copied result ≡ option_map (λ p. p.0) (pair_in node.now) }
{
    match node {
        Node::Pair { key, .. } => Some(key),
        _ => None,
    }
}
