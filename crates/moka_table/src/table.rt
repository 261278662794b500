//! What a cache needs of a table.
ghost use Rattle.std.specs.Prelude.{◌≡◌, ℕ, ◌<◌, ◌≤◌, true, max, List, Option, Some, IsSome, IfOk, OnErr};
ghost use Rattle.moka_hist.specs.declared.tables.TableAnswer.TheVariants as found;
ghost use Rattle.moka_hist.specs.declared.tables.TableOp.{TableOp};
ghost use Rattle.moka_hist.specs.declared.tables.TableTurn.{TableTurn};
ghost use Rattle.moka_table.specs.Map.{Pairs, SameMap, Moves, ListsPairs, longest, most_steps};
ghost use Rattle.moka_table.specs.Map.{GoesOnListing, IsList};

use crate::EntryList;
use moka_hist::{TableOp, TableTurn};
use moka_values::Exact;
use std::alloc::{AllocError, Global};
use std::hash::Hash;

/// A finite map from keys to stored records, whose operations are calls made of single steps.
///
/// A step is undecided, which leaves the map, or it decides with the map's answer at that step and
/// makes its change. Steps of different calls may be mixed freely: what fits a table still fits it
/// after the steps of others, and then decides within `most_steps` steps of its own.
pub trait Table<K: Eq + Hash + Exact, V: Exact> {
    /// An operation that was begun.
    type Call;

    /// The stored pair of each key.
    ghost map: { Self → Pairs K V };

    /// How many keys there are, and the most that there ever were.
    ghost count: { Self → ℕ };

    ghost peak: { Self → ℕ };

    /// How long its first array was, at least 128.
    ghost first: { Self → ℕ };

    /// The operation that a call was begun for, until it has decided.
    ghost operation_of: { Self.Call → Option (TableOp K V) };

    /// The call was begun on this table, and has not decided.
    ghost fits: { Self → Self.Call → Type 0 };

    /// How many steps the call may still make before it decides, where no other call steps in
    /// between.
    ghost left: { Self → Self.Call → ℕ };

    /// Into how many parts the keys are divided: 1 to 64.
    ghost divided: { Self → ℕ };

    /// The part of a key, from 0.
    ghost part_of: { Self → K → ℕ };

    /// A call that lists the keys of a part has listed this one.
    ghost listed: { Self → Self.Call → K → Type 0 };

    /// It has listed this key, or has yet to come to where it is.
    ghost covers: { Self → Self.Call → K → Type 0 };

    /// Into how many parts the keys are divided.
    fn parts(&self) -> usize
        ensures { result ≡ divided self.now };

    /// Begins an operation. It touches nothing, and takes no memory.
    fn begin(&self, operation: TableOp<K, V>) -> Self::Call
        ensures operation { operation_of result ≡ Some operation }
        ensures fits { fits self.now result }
        ensures left { left self.now result ≤ most_steps (first self.now) (peak self.now) }
        ensures none { (part : ℕ) → operation ≡ TableOp.Keys part
            → (q : K) → listed self.now result q → ⊥ }
        ensures all { (part : ℕ) → operation ≡ TableOp.Keys part
            → (q : K) → part_of self.now q ≡ part → covers self.now result q };

    /// Makes one step of a call that fits. After want of memory map and call are as before.
    fn step(&mut self, call: &mut Self::Call) -> Result<TableTurn<K, V>, AllocError>
        requires fits { fits self.old call.old }
        // What it gives, and what the table is after it.
        ensures moves { IfOk result (λ turn. (o : TableOp K V) → operation_of call.old ≡ Some o
            → Moves K.eq o (map self.old) (count self.old) turn (map self.new) (count self.new)) }
        ensures peak { peak self.new ≡ max (peak self.old) (count self.new) }
        ensures first { first self.new ≡ first self.old }
        ensures parts { (divided self.new ≡ divided self.old)
            × ((q : K) → part_of self.new q ≡ part_of self.old q) }
        // Of a call that lists the keys of a part: how it goes on, and which it gives at last.
        ensures lists { IfOk result (λ turn. (part : ℕ)
            → operation_of call.old ≡ Some (TableOp.Keys part) → turn ≡ TableTurn.Going
            → GoesOnListing (map self.old) (λ q. part_of self.old q ≡ part)
            (listed self.old call.old) (listed self.new call.new)
            (covers self.old call.old) (covers self.new call.new)) }
        ensures gives { IfOk result (λ turn. (part : ℕ) → (keys : List K)
            → operation_of call.old ≡ Some (TableOp.Keys part)
            → turn ≡ TableTurn.Decided (found.Keys keys)
            → IsList K.eq (map self.old) (λ q. part_of self.old q ≡ part)
            (listed self.old call.old) (covers self.old call.old)
            (longest (first self.old) (peak self.old)) keys) }
        // An undecided call is still begun, and nearer to its end.
        ensures undecided { IfOk result (λ turn. turn ≡ TableTurn.Going
            → (operation_of call.new ≡ operation_of call.old) × fits self.new call.new) }
        ensures nears { IfOk result (λ turn. turn ≡ TableTurn.Going
            → left self.new call.new < left self.old call.old) }
        // The other calls: they still fit, and are as far from their end at most as at their
        // beginning.
        ensures others { (other : Self.Call) → fits self.old other → fits self.new other }
        ensures others_left { (other : Self.Call) → fits self.old other
            → left self.new other ≤ most_steps (first self.new) (peak self.new) }
        // They have listed no key more, and cover what they covered of the keys that stay.
        ensures others_listed { (other : Self.Call) → fits self.old other
            → (q : K) → listed self.new other q → listed self.old other q }
        ensures others_cover { (other : Self.Call) (part : ℕ) → fits self.old other
            → operation_of other ≡ Some (TableOp.Keys part)
            → (q : K) → part_of self.old q ≡ part → IsSome (map self.old q) → IsSome (map self.new q)
            → covers self.old other q → covers self.new other q }
        // Without memory nothing has changed, for this call and for the others.
        ensures err_map { OnErr result (SameMap (map self.old) (map self.new)) }
        ensures err_count { OnErr result (count self.new ≡ count self.old) }
        ensures err_call { OnErr result ((operation_of call.new ≡ operation_of call.old)
            × fits self.new call.new × (left self.new call.new ≡ left self.old call.old)) }
        ensures err_listed { OnErr result ((q : K)
            → (listed self.new call.new q → listed self.old call.old q)
            × (covers self.old call.old q → covers self.new call.new q)) }
        ensures err_others { OnErr result ((other : Self.Call) → fits self.old other
            → left self.new other ≤ left self.old other) };

    /// Lists each pair of the map once, in any order.
    fn pairs(&self, alloc: Global) -> Result<EntryList<K, V>, AllocError>
        ensures { IfOk result (λ pairs. ListsPairs K.eq pairs (map self.now)) };

    /// How many keys there are.
    fn len(&self) -> usize
        ensures { result ≡ count self.now };

    /// There were never fewer keys at once than now, and the first array is no shorter than 128.
    ghost peak_holds: { (t : Self) → count t ≤ peak t };

    ghost first_holds: { (t : Self) → 128 ≤ first t };

    /// There are 1 to 64 parts, each key is of one of them, and equal keys are of the same.
    ghost parts_hold: { (t : Self) → (0 < divided t) × (divided t ≤ 64) };

    ghost part_holds: { (t : Self) (q : K) → part_of t q < divided t };

    ghost alike: { (t : Self) (a b : K) → K.eq a b ≡ true → part_of t a ≡ part_of t b };
}
