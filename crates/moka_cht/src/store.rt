//! The nodes of an array, and how they are filled and given up.

ghost use Rattle.std.specs.Prelude.{◌≡◌, ◌<◌, IfOk, OnErr, Some, IsSome, length, slice_set};
ghost use Rattle.std.specs.Option.{option_copied, option_map};
ghost use Rattle.moka_cht.specs.Nodes.{Sets, hash_in, node_at, pair_in};
ghost use Rattle.moka_cht.specs.Buckets.{IsSpare};

use crate::node::Node;
use std::alloc::AllocError;
use std::mem;

/// Stores a key and its value in a free node, the spare one first, and gives its number. On want of
/// memory no node changes, and key and value are dropped.
pub fn fill<K: Drop, V: Drop>(
    nodes: &mut Vec<Node<K, V>>,
    spare: Option<u64>,
    hash: u64,
    key: K,
    value: V,
) -> Result<u64, AllocError>
    requires { IsSpare nodes.old.items spare }
    ensures ok { IfOk result (λ n. Sets n (Node.Pair hash key value) nodes.old.items
        nodes.new.items) }
    ensures unused { IfOk result (λ n. node_at nodes.old.items n ≡ Node.Unused) }
    ensures err { OnErr result (nodes.new.items ≡ nodes.old.items) }
{
    let node = Node::Pair { hash, key, value };
    match spare {
        Some(number) => {
            nodes[number as usize] = node;
            Ok(number)
        }
        None => {
            let number = nodes.len() as u64;
            nodes.push(node)?;
            Ok(number)
        }
    }
}

/// Takes out what the node holds, and leaves it free.
pub fn release<K: Drop, V: Drop>(nodes: &mut Vec<Node<K, V>>, number: u64) -> Node<K, V>
    requires { number < length nodes.old.items }
    ensures node { result ≡ node_at nodes.old.items number }
    ensures unused { nodes.new.items ≡ slice_set nodes.old.items number Node.Unused }
{
    mem::replace(&mut nodes[number as usize], Node::Unused)
}

/// Takes the value out of the node. The node keeps its key.
pub fn retire<K: Drop, V: Drop>(nodes: &mut Vec<Node<K, V>>, number: u64) -> V
    requires within { number < length nodes.old.items }
    requires pair { IsSome (pair_in (node_at nodes.old.items number)) }
    ensures { (key : K) × (pair_in (node_at nodes.old.items number) ≡ Some (key, result))
        × (nodes.new.items ≡ slice_set nodes.old.items number
        (Node.Removed (hash_in (node_at nodes.old.items number)) key)) }
{
    match release(nodes, number) {
        Node::Pair { hash, key, value } => {
            nodes[number as usize] = Node::Removed { hash, key };
            value
        }
        _ => unreachable!(),
    }
}

/// Lends the value of the node, where it has a stored pair.
pub fn value_in<K, V>(node: &Node<K, V>) -> Option<&V>
    ensures { option_copied result ≡ option_map (λ p. p.1) (pair_in node.now) }
{
    match node {
        Node::Pair { value, .. } => Some(value),
        _ => None,
    }
}
