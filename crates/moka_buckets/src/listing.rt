//! The pairs of a table.

ghost use Rattle.std.specs.Prelude.{◌≡◌, ◌++◌, IfOk};
ghost use Rattle.moka_words.specs.Effect.{root, words_of};
ghost use Rattle.moka_buckets.specs.Arrays.{memory_of};
ghost use Rattle.moka_buckets.specs.Listed.{listed_at};
ghost use Rattle.moka_buckets.specs.Parts.{listed_over, listed_part};

use crate::array::Arrays;
use crate::node::Node;
use crate::nodes::node_at;
use crate::part::Part;
use crate::words::stored_in;
use moka_hist::Stored;
use moka_values::Exact;
use moka_words::Word;
use std::alloc::{AllocError, Global};

impl Arrays {
    /// The words of the root; none without one.
    pub fn root_words(&self) -> &[Word]
        ensures { result.now ≡ words_of (memory_of self.now) (root (memory_of self.now)) }
    {
        match self.root() {
            None => &[],
            Some(array) => self.words(array),
        }
    }
}

/// The pairs of all segments, of each in the order of the root's buckets.
pub fn list_parts<K: Exact, V: Exact>(
    parts: &[Part<K, V>],
    alloc: Global,
) -> Result<Vec<(K, Stored<V>)>, AllocError>
    ensures { IfOk result (λ pairs. pairs.items ≡ listed_over parts.now) }
{
    let mut pairs = Vec::new(alloc);
    for part in parts {
        list_part(&mut pairs, part)?;
    }
    Ok(pairs)
}

// The pairs of the nodes that the root stores, in the order of its buckets.
fn list_part<K: Exact, V: Exact>(
    pairs: &mut Vec<(K, Stored<V>)>,
    part: &Part<K, V>,
) -> Result<(), AllocError>
    ensures { IfOk result (λ done. pairs.new.items ≡ pairs.old.items ++ listed_part part.now) }
{
    for word in part.arrays.root_words() {
        list_word(pairs, part.nodes.as_slice(), *word)?;
    }
    Ok(())
}

// The pair of the word's node, if one is stored there.
fn list_word<K: Exact, V: Exact>(
    pairs: &mut Vec<(K, Stored<V>)>,
    nodes: &[Node<K, V>],
    word: Word,
) -> Result<(), AllocError>
    ensures { IfOk result (λ done. pairs.new.items
        ≡ pairs.old.items ++ listed_at nodes.now word) }
{
    let Some(number) = stored_in(word) else {
        return Ok(());
    };
    let Some(node) = node_at(nodes, number) else {
        return Ok(());
    };
    let pair = (node.key.clone()?, node.stored.clone()?);
    pairs.push(pair)?;
    Ok(())
}
