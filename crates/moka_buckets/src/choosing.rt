//! What operations choose that ask what is to be done.

ghost use Rattle.std.specs.Prelude.{◌≡◌, cond, is_some};
ghost use Rattle.moka_hist.specs.Tables.{taken_by};
ghost use Rattle.moka_words.specs.declared.accesses.Choice.TheVariants as choice;
ghost use Rattle.moka_buckets.specs.Nodes.{pair_at};
ghost use Rattle.moka_buckets.specs.Tables.{choose, put_of};
ghost use Rattle.moka_buckets.specs.Steps.{answered, asked};

use crate::bucket_call::BucketCall;
use crate::key_op::KeyOp;
use crate::node::Node;
use crate::nodes::node_at;
use moka_calls::TableCall;
use moka_words::{Access, Choice, Seen};

/// Answers a call that asks what is to be done.
pub fn answer<K, V>(nodes: &[Node<K, V>], call: &mut BucketCall<K, V>)
    ensures operation { call.new.operation ≡ call.old.operation }
    ensures hash { call.new.hash ≡ call.old.hash }
    ensures node { call.new.node ≡ call.old.node }
    ensures table { call.new.table
        ≡ answered (choose nodes.now call.old.operation call.old.node) call.old.table }
{
    if let Some(present) = asked(&call.table) {
        let choice = choose(nodes, &call.operation, call.node, present);
        match call.table.take(Seen::Chosen(choice)) {
            Ok(()) => {}
            Err(_) => unreachable!(),
        }
    }
}

/// The node that it found which asks what is to be done.
pub fn asked(table: &TableCall) -> Option<Option<u64>>
    ensures { result ≡ asked table.now }
{
    if table.decided().is_some() {
        return None;
    }
    match table.want() {
        Access::Choose { present } => Some(present),
        _ => None,
    }
}

// What is to be done where this node is present under the operation's key.
fn choose<K, V>(
    nodes: &[Node<K, V>],
    operation: &KeyOp<K, V>,
    node: Option<u64>,
    present: Option<u64>,
) -> Choice
    ensures { result ≡ choose nodes.now operation.now node present }
{
    match operation {
        KeyOp::Get { .. } => Choice::Keep,
        KeyOp::InsertOrModify { .. } => put_of(node),
        KeyOp::InsertIfAbsent { .. } => put_first(node, present),
        KeyOp::RemoveIf { stamp, .. } => take_out(nodes, present, *stamp),
    }
}

// The node, if there is one, takes the place.
fn put_of(node: Option<u64>) -> Choice
    ensures { result ≡ put_of node }
{
    match node {
        None => Choice::Keep,
        Some(node) => Choice::Put { node },
    }
}

// The node takes a place where none is present.
fn put_first(node: Option<u64>, present: Option<u64>) -> Choice
    ensures { result ≡ cond (is_some present) choice.Keep (put_of node) }
{
    if present.is_some() {
        Choice::Keep
    } else {
        put_of(node)
    }
}

// The node is taken out where its record has the stamp, if one is asked for.
fn take_out<K, V>(nodes: &[Node<K, V>], present: Option<u64>, stamp: Option<u64>) -> Choice
    ensures { result ≡ cond (is_some (taken_by stamp (pair_at nodes.now present)))
        choice.Remove choice.Keep }
{
    if has_stamp(nodes, present, stamp) {
        Choice::Remove
    } else {
        Choice::Keep
    }
}

fn has_stamp<K, V>(nodes: &[Node<K, V>], present: Option<u64>, stamp: Option<u64>) -> bool
    ensures { result ≡ is_some (taken_by stamp (pair_at nodes.now present)) }
{
    let Some(number) = present else {
        return false;
    };
    match (node_at(nodes, number), stamp) {
        (None, _) => false,
        (Some(_), None) => true,
        (Some(node), Some(stamp)) => node.stored.stamp == stamp,
    }
}
