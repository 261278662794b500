//! The keys of a segment: what is made of them, and clones.

ghost use Rattle.std.specs.Prelude.{◌≡◌, ◌++◌, IfOk, Some};
ghost use Rattle.std.specs.Map.{keys_of};
ghost use Rattle.std.specs.Option.{option_copied, option_map};
ghost use Rattle.moka_words.specs.Words.{stored_in};
ghost use Rattle.moka_buckets.specs.Asking.{ListsCalls};
ghost use Rattle.moka_buckets.specs.Listed.{keys_at, listed_in};
ghost use Rattle.moka_buckets.specs.Nodes.{pair_at};
ghost use Rattle.moka_buckets.specs.Parts.{listed_over, listed_part};

use crate::node::Node;
use crate::nodes::node_at;
use crate::part::Part;
use crate::words::stored_in;
use moka_values::Exact;
use moka_words::Word;
use std::alloc::{AllocError, Global};

/// What the closure makes of the keys of the segment, in the order of the root's buckets.
pub fn list_keys<K, V, T: Drop, F: FnMut(&K) -> T>(
    alloc: Global,
    part: &Part<K, V>,
    with_key: F,
) -> Result<Vec<T>, AllocError>
    requires { F.IsAlwaysCallable with_key }
    ensures { IfOk result (λ list. ListsCalls F.FnMut with_key
        (keys_of (listed_part part.now)) list.items) }
{
    list_words(
        alloc,
        part.arrays.root_words(),
        part.nodes.as_slice(),
        with_key,
    )
}

fn list_words<K, V, T: Drop, F: FnMut(&K) -> T>(
    alloc: Global,
    words: &[Word],
    nodes: &[Node<K, V>],
    mut with_key: F,
) -> Result<Vec<T>, AllocError>
    requires { F.IsAlwaysCallable with_key }
    ensures { IfOk result (λ list. ListsCalls F.FnMut with_key
        (keys_of (listed_in nodes.now words.now)) list.items) }
{
    let mut list = Vec::new(alloc);
    for word in words {
        let Some(key) = stored_key(nodes, *word) else {
            continue;
        };
        list.push(with_key(key))?;
    }
    Ok(list)
}

/// Clones of the keys of the segment, in the order of the root's buckets.
pub fn copy_keys<K: Exact, V>(alloc: Global, part: &Part<K, V>) -> Result<Vec<K>, AllocError>
    ensures { IfOk result (λ keys. keys.items ≡ keys_of (listed_part part.now)) }
{
    let mut keys = Vec::new(alloc);
    for word in part.arrays.root_words() {
        copy_key(&mut keys, part.nodes.as_slice(), *word)?;
    }
    Ok(keys)
}

/// Clones of the keys of all segments, in their order.
pub fn copy_all<K: Exact, V>(alloc: Global, parts: &[Part<K, V>]) -> Result<Vec<K>, AllocError>
    ensures { IfOk result (λ keys. keys.items ≡ keys_of (listed_over parts.now)) }
{
    let mut keys = Vec::new(alloc);
    for part in parts {
        copy_part(&mut keys, part)?;
    }
    Ok(keys)
}

fn copy_part<K: Exact, V>(keys: &mut Vec<K>, part: &Part<K, V>) -> Result<(), AllocError>
    ensures { IfOk result (λ done. keys.new.items
        ≡ keys.old.items ++ keys_of (listed_part part.now)) }
{
    for word in part.arrays.root_words() {
        copy_key(keys, part.nodes.as_slice(), *word)?;
    }
    Ok(())
}

// A clone of the key that is stored in the word, if one is.
fn copy_key<K: Exact, V>(
    keys: &mut Vec<K>,
    nodes: &[Node<K, V>],
    word: Word,
) -> Result<(), AllocError>
    ensures { IfOk result (λ done. keys.new.items
        ≡ keys.old.items ++ keys_at nodes.now word) }
{
    let Some(key) = stored_key(nodes, word) else {
        return Ok(());
    };
    keys.push(key.clone()?)?;
    Ok(())
}

/// The key that is stored in the word.
pub fn stored_key<K, V>(nodes: &[Node<K, V>], word: Word) -> Option<&K>
    ensures { option_copied result ≡ option_map (λ p. p.0) (pair_at nodes.now (stored_in word)) }
{
    match stored_in(word) {
        None => None,
        Some(number) => key_at(nodes, number),
    }
}

fn key_at<K, V>(nodes: &[Node<K, V>], number: u64) -> Option<&K>
    ensures { option_copied result
        ≡ option_map (λ p. p.0) (pair_at nodes.now (Some number)) }
{
    match node_at(nodes, number) {
        None => None,
        Some(node) => Some(&node.key),
    }
}
