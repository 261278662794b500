//! How segments are laid out anew.

ghost use Rattle.std.specs.Prelude.{◌≡◌, ◌++◌, ◌<◌, ◌≤◌, ◌^◌, IfOk, length};
ghost use Rattle.std.specs.Option.{option_to_list};
ghost use Rattle.moka_words.specs.Words.{stored_in};
ghost use Rattle.moka_buckets.specs.Compacting.{AllCompact, AreLaid, Compacts, IsCompact, live_nodes, node_in, numbered};

use crate::array::Arrays;
use crate::linking::MOST_WORDS;
use crate::node::Node;
use crate::nodes::node_at;
use crate::part::Part;
use crate::words::stored_in;
use moka_calls::lay_out;
use moka_values::Exact;
use moka_words::Word;
use std::alloc::{AllocError, Global};

/// An array that is laid out anew is no shorter than this.
const LEAST: usize = 128;

/// The segments laid out anew, in their order.
pub fn compact_parts<K: Exact, V: Exact>(
    alloc: Global,
    parts: &[Part<K, V>],
) -> Result<Vec<Part<K, V>>, AllocError>
    ensures { IfOk result (λ anew. AllCompact parts.now anew.items) }
{
    let mut anew = Vec::with_capacity(alloc, parts.len())?;
    for part in parts {
        let renewed = compact_part(alloc, part)?;
        anew.push(renewed)?;
    }
    Ok(anew)
}

fn compact_part<K: Exact, V: Exact>(
    alloc: Global,
    part: &Part<K, V>,
) -> Result<Part<K, V>, AllocError>
    ensures { IfOk result (λ new. Compacts part.now new) }
{
    let nodes = clone_live(alloc, part)?;
    let arrays = lay_nodes(alloc, &nodes)?;
    Ok(Part {
        arrays,
        nodes,
        peak: part.peak.max(part.arrays.segment.len),
    })
}

// Clones of the nodes that the root stores.
fn clone_live<K: Exact, V: Exact>(
    alloc: Global,
    part: &Part<K, V>,
) -> Result<Vec<Node<K, V>>, AllocError>
    ensures { IfOk result (λ nodes. nodes.items ≡ live_nodes part.now) }
{
    let mut nodes = Vec::new(alloc);
    for word in part.arrays.root_words() {
        clone_word(&mut nodes, part.nodes.as_slice(), *word)?;
    }
    Ok(nodes)
}

// A clone of the word's node, if one is stored there.
fn clone_word<K: Exact, V: Exact>(
    clones: &mut Vec<Node<K, V>>,
    nodes: &[Node<K, V>],
    word: Word,
) -> Result<(), AllocError>
    ensures { IfOk result (λ done. clones.new.items
        ≡ clones.old.items ++ option_to_list (node_in nodes.now (stored_in word))) }
{
    let Some(number) = stored_in(word) else {
        return Ok(());
    };
    let Some(node) = node_at(nodes, number) else {
        return Ok(());
    };
    let clone = Node {
        key: node.key.clone()?,
        stored: node.stored.clone()?,
        hash: node.hash,
    };
    clones.push(clone)?;
    Ok(())
}

// One array in which the nodes are laid out; none without nodes.
fn lay_nodes<K, V>(alloc: Global, nodes: &[Node<K, V>]) -> Result<Arrays, AllocError>
    ensures { IfOk result (λ s. AreLaid nodes.now s) }
{
    if nodes.is_empty() {
        return Ok(Arrays::none(alloc));
    }
    let size = compact_size(nodes.len())?;
    let kept = number(alloc, nodes)?;
    let words = lay_out(alloc, &kept, size)?;
    let mut arrays = Arrays::one(alloc, words)?;
    arrays.segment.len = nodes.len() as u64;
    Ok(arrays)
}

// How many words so many keys get. More than 2^61 are want of memory.
fn compact_size(keys: usize) -> Result<usize, AllocError>
    ensures compact { IfOk result (λ size. IsCompact keys size) }
    ensures small { IfOk result (λ size. size ≤ 2 ^ 61) }
{
    let mut size = LEAST;
    while 7 * (size as u128) < 10 * (keys as u128) {
        if size >= MOST_WORDS {
            return Err(AllocError);
        }
        size *= 2;
    }
    Ok(size)
}

// The places of the nodes, with their hashes.
fn number<K, V>(alloc: Global, nodes: &[Node<K, V>]) -> Result<Vec<(u64, u64)>, AllocError>
    ensures { IfOk result (λ kept. kept.items ≡ numbered 0 nodes.now) }
{
    let mut kept = Vec::with_capacity(alloc, nodes.len())?;
    for (place, node) in nodes.iter().enumerate() {
        kept.push((place as u64, node.hash))?;
    }
    Ok(kept)
}
