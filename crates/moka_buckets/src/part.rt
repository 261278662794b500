//! The segments of a table.

ghost use Rattle.std.specs.Prelude.{◌≡◌, ℕ, ◌-◌, ◌<◌, ◌^◌, Some, length, slice_set};
ghost use Rattle.moka_buckets.specs.KeyOps.{key_of};
ghost use Rattle.moka_buckets.specs.Accesses.{MovesOnce, StaysThere, StepsOnce, wanted_by};
ghost use Rattle.std.specs.List.{slice_get};
ghost use Rattle.moka_buckets.specs.Arrays.{ArePlaced};
ghost use Rattle.moka_buckets.specs.Steps.{CanBegin};
ghost use Rattle.moka_buckets.specs.Keys.{KeepsKeys};
ghost use Rattle.moka_buckets.specs.Parts.{CanGo, Goes, GoesOver, keys_at, memory_at, peak_at, segment_of};
ghost use Rattle.moka_buckets.specs.declared.part.Part.{Part};

use crate::array::Arrays;
use crate::bucket_call::BucketCall;
use crate::node::Node;
use crate::stepping::step;
use moka_hist::TableTurn;
use moka_values::Exact;
use std::alloc::AllocError;

/// A segment with all that is its own: arrays, nodes, and the most keys that it had before the last
/// step of one of its operations. Numbers of arrays and nodes are its own too.
#[derive(Drop)]
pub struct Part<K, V> {
    pub arrays: Arrays,
    pub nodes: Vec<Node<K, V>>,
    pub peak: u64,
}

impl<K: Eq + Exact, V: Exact> Part<K, V> {
    /// Makes one step of an operation on one of its keys.
    pub fn step(&mut self, call: &mut BucketCall<K, V>) -> Result<TableTurn<K, V>, AllocError>
        requires placed { ArePlaced self.old.arrays }
        requires can { (hash : K → ℕ) × (first : ℕ) × CanBegin K.eq hash
            (memory_at self.old) self.old.nodes.items first (peak_at self.old) call.old }
        ensures goes { (hash : K → ℕ) (first : ℕ) → CanBegin K.eq hash
            (memory_at self.old) self.old.nodes.items first (peak_at self.old) call.old
            → Goes K.eq hash first self.old call.old result self.new call.new }
        ensures once { (hash : K → ℕ) (first : ℕ) → CanBegin K.eq hash
            (memory_at self.old) self.old.nodes.items first (peak_at self.old) call.old
            → StepsOnce K.eq hash (Some (key_of call.old.operation))
            (wanted_by call.old.table) result self.old self.new }
    {
        self.peak = self.peak.max(self.arrays.segment.len);
        step(&mut self.arrays, &mut self.nodes, call)
    }
}

/// The segment of a hash, of so many segments.
pub fn segment_of(count: usize, hash: u64) -> usize
    requires some { 0 < count }
    ensures is { result ≡ segment_of count hash }
    ensures within { result < count }
{
    ((hash as u128 * count as u128) >> 64) as usize
}

/// How many keys the segment has.
fn keys_at<K, V>(parts: &[Part<K, V>], index: usize) -> u64
    requires { index < length parts.now }
    ensures { (p : Part K V) → slice_get parts.now index ≡ Some p → result ≡ keys_at p }
{
    parts[index].arrays.segment.len
}

/// Makes one step of an operation on a key of this segment.
fn step_at<K: Eq + Exact, V: Exact>(
    parts: &mut Vec<Part<K, V>>,
    index: usize,
    call: &mut BucketCall<K, V>,
) -> Result<TableTurn<K, V>, AllocError>
    requires can { (hash : K → ℕ) × (first : ℕ) × (p : Part K V)
        × (slice_get parts.old.items index ≡ Some p) × ArePlaced p.arrays × CanBegin K.eq hash
        (memory_at p) p.nodes.items first (peak_at p) call.old }
    ensures long { length parts.new.items ≡ length parts.old.items }
    ensures goes { (hash : K → ℕ) (first : ℕ) (p : Part K V)
        → slice_get parts.old.items index ≡ Some p
        → CanBegin K.eq hash (memory_at p) p.nodes.items first (peak_at p) call.old
        → (new : Part K V) × (parts.new.items ≡ slice_set parts.old.items index new)
        × Goes K.eq hash first p call.old result new call.new }
    ensures once { (hash : K → ℕ) (first : ℕ) (p : Part K V)
        → slice_get parts.old.items index ≡ Some p
        → CanBegin K.eq hash (memory_at p) p.nodes.items first (peak_at p) call.old
        → (new : Part K V) × (parts.new.items ≡ slice_set parts.old.items index new)
        × StepsOnce K.eq hash (Some (key_of call.old.operation))
        (wanted_by call.old.table) result p new }
{
    parts[index].step(call)
}

/// Makes one step of an operation in the segment of its key; `len` counts the keys of all segments.
pub fn step_parts<K: Eq + Exact, V: Exact>(
    parts: &mut Vec<Part<K, V>>,
    len: &mut u64,
    call: &mut BucketCall<K, V>,
) -> Result<TableTurn<K, V>, AllocError>
    requires few { len.old < 2 ^ 64 - 1 }
    requires can { (hash : K → ℕ) × (first : ℕ) × (most : ℕ)
        × CanGo K.eq hash parts.old.items first most len.old call.old }
    ensures over { (hash : K → ℕ) (first most : ℕ)
        → CanGo K.eq hash parts.old.items first most len.old call.old
        → GoesOver K.eq hash first parts.old.items most len.old call.old result
        parts.new.items len.new call.new }
    ensures keys { (hash : K → ℕ) (first most : ℕ)
        → CanGo K.eq hash parts.old.items first most len.old call.old
        → KeepsKeys K.eq hash parts.old.items parts.new.items }
    ensures one { (hash : K → ℕ) (first most : ℕ)
        → CanGo K.eq hash parts.old.items first most len.old call.old
        → MovesOnce K.eq hash (Some (key_of call.old.operation)) (wanted_by call.old.table)
        (segment_of (length parts.old.items) call.old.hash) result
        parts.old.items parts.new.items }
    ensures stays { (hash : K → ℕ) (first most : ℕ)
        → CanGo K.eq hash parts.old.items first most len.old call.old
        → StaysThere (segment_of (length parts.old.items) call.old.hash)
        parts.old.items parts.new.items call.old call.new }
    ensures long { length parts.new.items ≡ length parts.old.items }
{
    let index = segment_of(parts.len(), call.hash);
    let before = keys_at(parts, index);
    let turn = step_at(parts, index, call);
    *len = *len - before + keys_at(parts, index);
    turn
}
