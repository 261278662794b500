//! One step of an operation.

ghost use Rattle.std.specs.Prelude.{◌≡◌, ℕ, IfOk, Ok, OnErr, Some};
ghost use Rattle.moka_buckets.specs.KeyOps.{key_of};
ghost use Rattle.moka_buckets.specs.Arrays.{ArePlaced, memory_of};
ghost use Rattle.moka_buckets.specs.Accesses.{Accesses, wanted_by};
ghost use Rattle.moka_buckets.specs.Steps.{CanBegin, Done};

use crate::array::Arrays;
use crate::bucket_call::BucketCall;
use crate::calling::{key_of, turn_of};
use crate::choosing::answer;
use crate::finding::found;
use crate::making::make;
use crate::node::Node;
use crate::nodes::clone_pair;
use crate::putting::{place, spare};
use moka_hist::TableTurn;
use moka_values::Exact;
use std::alloc::AllocError;

/// Makes one access, and answers the question to which a load leads; where that is a put and there
/// is no node for it, one is made. Without memory nothing has changed.
pub fn step<K: Eq + Exact, V: Exact>(
    arrays: &mut Arrays,
    nodes: &mut Vec<Node<K, V>>,
    call: &mut BucketCall<K, V>,
) -> Result<TableTurn<K, V>, AllocError>
    requires placed { ArePlaced arrays.old }
    requires can { (hash : K → ℕ) × (first : ℕ) × (peak : ℕ)
        × CanBegin K.eq hash (memory_of arrays.old) nodes.old.items first peak call.old }
    ensures done { (hash : K → ℕ) (first peak : ℕ)
        → CanBegin K.eq hash (memory_of arrays.old) nodes.old.items first peak call.old
        → IfOk result (λ turn. Done K.eq hash first peak (memory_of arrays.old) nodes.old.items
        call.old (Ok turn) (memory_of arrays.new) nodes.new.items call.new) }
    ensures accesses { (hash : K → ℕ) (first peak : ℕ)
        → CanBegin K.eq hash (memory_of arrays.old) nodes.old.items first peak call.old
        → IfOk result (λ turn. Accesses K.eq hash (Some (key_of call.old.operation))
        (wanted_by call.old.table) nodes.new.items
        (memory_of arrays.old) (memory_of arrays.new)) }
    ensures placed { ArePlaced arrays.new }
    ensures err { OnErr result ((memory_of arrays.new ≡ memory_of arrays.old)
        × (nodes.new.items ≡ nodes.old.items) × (call.new ≡ call.old)) }
{
    let before = nodes.as_slice();
    let access = call.table.want();
    let pair = clone_pair(before, found(arrays, before, &call.operation, access))?;
    let saw = make(arrays, before, Some(key_of(&call.operation)), access)?;
    let node = spare(nodes, call, saw)?;
    call.table.take(saw)?;
    place(nodes, call, node);
    answer(nodes.as_slice(), call);
    Ok(turn_of(&call.table, pair))
}
