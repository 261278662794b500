//! One step of a call that lists keys, and its list.

ghost use Rattle.std.specs.Prelude.{List, ◌≡◌, ℕ, ◌++◌, true, is_some, IfOk, Ok, OnErr, None, Some, [], slice_set};
ghost use Rattle.std.specs.List.{slice_get};
ghost use Rattle.std.specs.Option.{option_copied, option_map, option_to_list};
ghost use Rattle.moka_growth.specs.declared.kinds.CallKind.TheVariants as kind;
ghost use Rattle.moka_growth.specs.Calls.{Going, Decided, Nodes, call_from};
ghost use Rattle.moka_buckets.specs.Nodes.{key_in};
ghost use Rattle.moka_buckets.specs.Arrays.{ArePlaced, memory_of};
ghost use Rattle.moka_buckets.specs.Walks.{CanWalk, Lead, is_ended, listed_by};
ghost use Rattle.moka_buckets.specs.Accesses.{Accesses, MovesOnce, StepsOnce, wanted_by};
ghost use Rattle.moka_buckets.specs.Keys.{CanList, Leads, WalksOver, keys_in, nodes_of};
ghost use Rattle.moka_buckets.specs.Parts.{memory_at, peak_at};
ghost use Rattle.moka_buckets.specs.declared.part.Part.{Part};

use crate::array::Arrays;
use crate::keys_call::KeysCall;
use crate::making::make;
use crate::node::Node;
use crate::nodes::node_at;
use crate::part::Part;
use moka_calls::{Decision, TableCall};
use moka_values::Exact;
use moka_words::Seen;
use std::alloc::{AllocError, Global};

/// Makes one access; tells whether the call has decided. Without memory nothing has changed.
pub fn walk<K: Eq, V>(
    arrays: &mut Arrays,
    nodes: &[Node<K, V>],
    table: &mut TableCall,
) -> Result<bool, AllocError>
    requires placed { ArePlaced arrays.old }
    requires can { (hash : K → ℕ) × (first : ℕ) × (peak : ℕ)
        × CanWalk K.eq hash (memory_of arrays.old) nodes.now first peak table.old }
    ensures lead { (hash : K → ℕ) (first peak : ℕ)
        → CanWalk K.eq hash (memory_of arrays.old) nodes.now first peak table.old
        → IfOk result (λ done. Lead K.eq hash nodes.now first peak
        (memory_of arrays.old) table.old (memory_of arrays.new) table.new) }
    ensures accesses { (hash : K → ℕ) (first peak : ℕ)
        → CanWalk K.eq hash (memory_of arrays.old) nodes.now first peak table.old
        → IfOk result (λ done. Accesses K.eq hash None (wanted_by table.old) nodes.now
        (memory_of arrays.old) (memory_of arrays.new)) }
    ensures ended { IfOk result (λ done. done ≡ is_ended table.new) }
    ensures placed { ArePlaced arrays.new }
    ensures err { OnErr result ((memory_of arrays.new ≡ memory_of arrays.old)
        × (table.new ≡ table.old)) }
{
    let access = table.want();
    let saw = make(arrays, nodes, no_key(nodes), access)?;
    table.take(saw)?;
    Ok(table.decided().is_some())
}

// A call that lists keys has none of its own.
fn no_key<K, V>(nodes: &[Node<K, V>]) -> Option<&K>
    ensures { option_copied result ≡ None }
{
    None
}

impl<K: Eq, V> Part<K, V> {
    /// Makes one step of a call that lists its keys.
    pub fn walk(&mut self, table: &mut TableCall) -> Result<bool, AllocError>
        requires placed { ArePlaced self.old.arrays }
        requires can { (hash : K → ℕ) × (first : ℕ) × CanWalk K.eq hash
            (memory_at self.old) self.old.nodes.items first (peak_at self.old) table.old }
        ensures leads { (hash : K → ℕ) (first : ℕ) → CanWalk K.eq hash
            (memory_at self.old) self.old.nodes.items first (peak_at self.old) table.old
            → Leads K.eq hash first self.old table.old result self.new table.new }
        ensures once { (hash : K → ℕ) (first : ℕ) → CanWalk K.eq hash
            (memory_at self.old) self.old.nodes.items first (peak_at self.old) table.old
            → StepsOnce K.eq hash None (wanted_by table.old) result self.old self.new }
    {
        walk(&mut self.arrays, self.nodes.as_slice(), table)
    }
}

// Makes one step of a call in this segment.
fn walk_at<K: Eq, V>(
    parts: &mut Vec<Part<K, V>>,
    index: usize,
    table: &mut TableCall,
) -> Result<bool, AllocError>
    requires can { (hash : K → ℕ) × (first : ℕ) × (p : Part K V)
        × (slice_get parts.old.items index ≡ Some p) × ArePlaced p.arrays × CanWalk K.eq hash
        (memory_at p) p.nodes.items first (peak_at p) table.old }
    ensures leads { (hash : K → ℕ) (first : ℕ) (p : Part K V)
        → slice_get parts.old.items index ≡ Some p
        → CanWalk K.eq hash (memory_at p) p.nodes.items first (peak_at p) table.old
        → (new : Part K V) × (parts.new.items ≡ slice_set parts.old.items index new)
        × Leads K.eq hash first p table.old result new table.new }
    ensures once { (hash : K → ℕ) (first : ℕ) (p : Part K V)
        → slice_get parts.old.items index ≡ Some p
        → CanWalk K.eq hash (memory_at p) p.nodes.items first (peak_at p) table.old
        → (new : Part K V) × (parts.new.items ≡ slice_set parts.old.items index new)
        × StepsOnce K.eq hash None (wanted_by table.old) result p new }
{
    parts[index].walk(table)
}

// Ends a call to a segment that isn't there: it lists nothing.
fn walk_nowhere(table: &mut TableCall) -> Result<bool, AllocError>
    requires { table.old ≡ Going (call_from kind.Keys 0) }
    ensures result { result ≡ Ok true }
    ensures ended { table.new ≡ Decided (Nodes []) }
{
    table.take(Seen::Root {
        array: None,
        length: 0,
        tombstones: 0,
        len: 0,
    })?;
    Ok(true)
}

/// Makes one step of a call in its segment, if that is there.
pub fn walk_parts<K: Eq, V>(
    parts: &mut Vec<Part<K, V>>,
    call: &mut KeysCall,
) -> Result<bool, AllocError>
    requires can { (hash : K → ℕ) × (first most len : ℕ)
        × CanList K.eq hash parts.old.items first most len call.old }
    ensures over { (hash : K → ℕ) (first most len : ℕ)
        → CanList K.eq hash parts.old.items first most len call.old
        → WalksOver K.eq hash first parts.old.items most len call.old result
        parts.new.items call.new }
    ensures one { (hash : K → ℕ) (first most len : ℕ)
        → CanList K.eq hash parts.old.items first most len call.old
        → MovesOnce K.eq hash None (wanted_by call.old.table) call.old.segment result
        parts.old.items parts.new.items }
{
    if call.segment < parts.len() {
        walk_at(parts, call.segment, &mut call.table)
    } else {
        walk_nowhere(&mut call.table)
    }
}

/// Clones of the keys that the call has listed; None where it hasn't decided.
pub fn listed_keys<K: Exact, V>(
    alloc: Global,
    parts: &[Part<K, V>],
    call: &KeysCall,
) -> Result<Option<Vec<K>>, AllocError>
    ensures ended { IfOk result (λ keys. is_some keys ≡ is_ended call.now.table) }
    ensures listed { IfOk result (λ keys. (list : List K)
        → option_map (λ v. v.items) keys ≡ Some list
        → list ≡ keys_in (nodes_of parts.now call.now.segment) (listed_by call.now.table)) }
{
    match call.table.decided() {
        None => Ok(None),
        Some(Decision::Nodes(numbers)) => {
            let nodes = nodes_of(parts, call.segment);
            let keys = clone_keys(alloc, nodes, numbers.as_slice())?;
            Ok(Some(keys))
        }
        Some(_) => Ok(Some(Vec::new(alloc))),
    }
}

/// The nodes of a segment; none where it isn't there.
pub fn nodes_of<K, V>(parts: &[Part<K, V>], segment: usize) -> &[Node<K, V>]
    ensures { result.now ≡ nodes_of parts.now segment }
{
    match parts.get(segment) {
        None => &[],
        Some(part) => part.nodes.as_slice(),
    }
}

// The keys of these nodes, in their order.
fn clone_keys<K: Exact, V>(
    alloc: Global,
    nodes: &[Node<K, V>],
    numbers: &[u64],
) -> Result<Vec<K>, AllocError>
    ensures { IfOk result (λ keys. keys.items ≡ keys_in nodes.now numbers.now) }
{
    let mut keys = Vec::new(alloc);
    for number in numbers {
        clone_key(&mut keys, nodes, *number)?;
    }
    Ok(keys)
}

fn clone_key<K: Exact, V>(
    keys: &mut Vec<K>,
    nodes: &[Node<K, V>],
    number: u64,
) -> Result<(), AllocError>
    ensures { IfOk result (λ done. keys.new.items
        ≡ keys.old.items ++ option_to_list (key_in nodes.now number)) }
{
    let Some(node) = node_at(nodes, number) else {
        return Ok(());
    };
    keys.push(node.key.clone()?)?;
    Ok(())
}
