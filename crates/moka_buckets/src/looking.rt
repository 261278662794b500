//! A look at a key, which is no operation: it reads the root, whether words are sealed or not.

ghost use Rattle.std.specs.Prelude.{◌≡◌, ℕ, ◌<◌, ◌≤◌, ◌^◌, Bool, length, true};
ghost use Rattle.std.specs.Fn.{ComputesKey};
ghost use Rattle.std.specs.Int.{IsPowerOfTwo};
ghost use Rattle.std.specs.Option.{option_copied, option_map, option_map_or};
ghost use Rattle.moka_words.specs.Words.{node_of};
ghost use Rattle.moka_pairs.specs.Keys.{own_by};
ghost use Rattle.moka_buckets.specs.Nodes.{key_in};
ghost use Rattle.moka_buckets.specs.Looking.{CanLook, CanSeek, Seeks, is_end};
ghost use Rattle.moka_buckets.specs.Parts.{map_at, map_over};

use crate::node::Node;
use crate::nodes::node_at;
use crate::part::{Part, segment_of};
use crate::words::{node_of, stored_in};
use moka_calls::bucket_at;
use moka_words::Word;

/// The node of the pair under the key that the test is true of, in the segment of its hash.
pub fn find_over<K: Eq, V, F: FnMut(&K) -> bool>(
    parts: &[Part<K, V>],
    hash: u64,
    eq: F,
) -> Option<&Node<K, V>>
    requires callable { F.IsAlwaysCallable eq }
    requires can { (key : K) × (by : K → ℕ) × (first most len : ℕ)
        × CanLook K.eq by parts.now first most len hash key }
    ensures { (key : K) (by : K → ℕ) (first most len : ℕ)
        → ComputesKey F.FnMut (K.eq key) eq
        → CanLook K.eq by parts.now first most len hash key
        → option_map (λ node. (node.key, node.stored)) (option_copied result)
        ≡ map_over K.eq by parts.now key }
{
    parts[segment_of(parts.len(), hash)].find(hash, eq)
}

impl<K: Eq, V> Part<K, V> {
    /// The node of the pair under the key that the test is true of.
    pub fn find<F: FnMut(&K) -> bool>(&self, hash: u64, eq: F) -> Option<&Node<K, V>>
        requires callable { F.IsAlwaysCallable eq }
        requires can { (key : K) × (by : K → ℕ) × (first : ℕ)
            × CanSeek K.eq by first self.now hash key }
        ensures { (key : K) (by : K → ℕ) (first : ℕ)
            → ComputesKey F.FnMut (K.eq key) eq
            → CanSeek K.eq by first self.now hash key
            → option_map (λ node. (node.key, node.stored)) (option_copied result)
            ≡ map_at K.eq self.now key }
    {
        let nodes = self.nodes.as_slice();
        match seek(self.arrays.root_words(), nodes, hash, eq) {
            None => None,
            Some(number) => node_at(nodes, number),
        }
    }
}

// The node that is present under the key that the test is true of, by a probe of these words.
fn seek<K: Eq, V, F: FnMut(&K) -> bool>(
    words: &[Word],
    nodes: &[Node<K, V>],
    hash: u64,
    mut eq: F,
) -> Option<u64>
    requires callable { F.IsAlwaysCallable eq }
    requires power { 0 < length words.now → IsPowerOfTwo (length words.now) }
    requires small { length words.now ≤ 2 ^ 60 }
    ensures { (key : K) → ComputesKey F.FnMut (K.eq key) eq
        → Seeks (own_by K.eq (key_in nodes.now) key) words.now hash result }
{
    for passed in 0..words.len() {
        let word = words[bucket_at(words.len(), hash, passed)];
        if is_end(nodes, word, &mut eq) {
            return stored_in(word);
        }
    }
    None
}

// Whether a probe for the key ends at the word: the bucket has no key, or this one.
fn is_end<K: Eq, V, F: FnMut(&K) -> bool>(nodes: &[Node<K, V>], word: Word, eq: &mut F) -> bool
    requires { F.IsAlwaysCallable eq.old }
    ensures callable { F.IsAlwaysCallable eq.new }
    ensures end { (key : K) → ComputesKey F.FnMut (K.eq key) eq.old
        → ComputesKey F.FnMut (K.eq key) eq.new
        × (result ≡ is_end (own_by K.eq (key_in nodes.now) key) word) }
{
    match node_of(word) {
        None => true,
        Some(number) => is_own(nodes, number, eq),
    }
}

// Whether the test is true of the node's key.
fn is_own<K: Eq, V, F: FnMut(&K) -> bool>(nodes: &[Node<K, V>], number: u64, eq: &mut F) -> bool
    requires { F.IsAlwaysCallable eq.old }
    ensures callable { F.IsAlwaysCallable eq.new }
    ensures own { (key : K) → ComputesKey F.FnMut (K.eq key) eq.old
        → ComputesKey F.FnMut (K.eq key) eq.new
        × (result ≡ own_by K.eq (key_in nodes.now) key number) }
{
    match node_at(nodes, number) {
        None => false,
        Some(node) => is_true(&node.key, eq),
    }
}

fn is_true<K, F: FnMut(&K) -> bool>(key: &K, eq: &mut F) -> bool
    requires { F.IsAlwaysCallable eq.old }
    ensures callable { F.IsAlwaysCallable eq.new }
    ensures own { (h : K → Bool) → ComputesKey F.FnMut h eq.old
        → ComputesKey F.FnMut h eq.new × (result ≡ h key.now) }
{
    eq(key)
}
