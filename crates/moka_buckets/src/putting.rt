//! The node that an operation puts.

ghost use Rattle.std.specs.Prelude.{◌≡◌, ◌<◌, true, IfOk, OnErr, Option, IsSome, Some, length};
ghost use Rattle.std.specs.Option.{option_map};
ghost use Rattle.std.specs.Vec.{vec_capacity};
ghost use Rattle.moka_buckets.specs.Tables.{stored_by};
ghost use Rattle.moka_buckets.specs.Putting.{lacks_node, opened, opened_by, puts_at, puts_if, spare_of};
ghost use Rattle.moka_buckets.specs.Steps.{Places, asked};

use crate::bucket_call::BucketCall;
use crate::choosing::asked;
use crate::key_op::KeyOp;
use crate::node::Node;
use moka_hist::Stored;
use moka_values::Exact;
use moka_words::{Seen, Word};
use std::alloc::AllocError;

/// Makes a node for the pair that is to be stored, with room for it among the nodes, where what the
/// call saw leads it to put one and it has none.
pub fn spare<K: Exact, V: Exact>(
    nodes: &mut Vec<Node<K, V>>,
    call: &BucketCall<K, V>,
    saw: Seen,
) -> Result<Option<Node<K, V>>, AllocError>
    ensures items { nodes.new.items ≡ nodes.old.items }
    ensures spare { IfOk result (λ node. node ≡ spare_of call.now saw) }
    ensures room { IfOk result (λ node. IsSome node
        → length nodes.new.items < vec_capacity nodes.new) }
    ensures err { OnErr result (lacks_node call.now saw ≡ true) }
{
    if !lacks_node(call, saw) {
        return Ok(None);
    }
    let node = new_node(&call.operation, call.hash)?;
    nodes.reserve(1)?;
    Ok(node)
}

/// Puts the spare node among the nodes, if the call asks and is to put it. There is room for it.
pub fn place<K: Exact, V: Exact>(
    nodes: &mut Vec<Node<K, V>>,
    call: &mut BucketCall<K, V>,
    spare: Option<Node<K, V>>,
)
    requires room { IsSome spare → length nodes.old.items < vec_capacity nodes.old }
    ensures places { Places nodes.old.items nodes.new.items call.old spare call.new }
{
    let Some(node) = spare else {
        return;
    };
    if !puts(call) {
        return;
    }
    call.node = Some(nodes.len() as u64);
    nodes.push_reserved(node);
}

// Whether the call asks, and is to put a node.
fn puts<K, V>(call: &BucketCall<K, V>) -> bool
    ensures { result ≡ puts_if call.now.operation (asked call.now.table) }
{
    match asked(&call.table) {
        None => false,
        Some(present) => puts_at(&call.operation, present),
    }
}

// Whether what the call saw leads it to put a node, and it has none.
fn lacks_node<K, V>(call: &BucketCall<K, V>, saw: Seen) -> bool
    ensures { result ≡ lacks_node call.now saw }
{
    if call.node.is_some() {
        return false;
    }
    if !call.table.probes() {
        return false;
    }
    match opened(saw) {
        None => false,
        Some(present) => puts_at(&call.operation, present),
    }
}

// The node that a probe found under its key as it came to the word; None where the probe goes on.
fn opened(saw: Seen) -> Option<Option<u64>>
    ensures { result ≡ opened saw }
{
    match saw {
        Seen::Word { word, same, .. } => opened_by(word, same),
        _ => None,
    }
}

fn opened_by(word: Word, same: bool) -> Option<Option<u64>>
    ensures { result ≡ opened_by word same }
{
    match word {
        Word::Empty => Some(None),
        Word::Live(node) if same => Some(Some(node)),
        Word::Tomb(_) if same => Some(None),
        _ => None,
    }
}

// Whether the operation puts its pair where this node is present under its key.
fn puts_at<K, V>(operation: &KeyOp<K, V>, present: Option<u64>) -> bool
    ensures { result ≡ puts_at operation.now present }
{
    match operation {
        KeyOp::Get { .. } => false,
        KeyOp::InsertOrModify { .. } => true,
        KeyOp::InsertIfAbsent { .. } => present.is_none(),
        KeyOp::RemoveIf { .. } => false,
    }
}

// A node for the pair that is to be stored.
fn new_node<K: Exact, V: Exact>(
    operation: &KeyOp<K, V>,
    hash: u64,
) -> Result<Option<Node<K, V>>, AllocError>
    ensures { IfOk result (λ node. node ≡ option_map
        (λ pair. record { key = pair.0; stored = pair.1; hash = hash }) (stored_by operation.now)) }
{
    match operation {
        KeyOp::Get { .. } => Ok(None),
        KeyOp::InsertOrModify { key, stored } => node_for(key, stored, hash),
        KeyOp::InsertIfAbsent { key, stored } => node_for(key, stored, hash),
        KeyOp::RemoveIf { .. } => Ok(None),
    }
}

fn node_for<K: Exact, V: Exact>(
    key: &K,
    stored: &Stored<V>,
    hash: u64,
) -> Result<Option<Node<K, V>>, AllocError>
    ensures { IfOk result (λ node. node
        ≡ Some (record { key = key.now; stored = stored.now; hash = hash })) }
{
    let key = key.clone()?;
    let stored = stored.clone()?;
    Ok(Some(Node { key, stored, hash }))
}
