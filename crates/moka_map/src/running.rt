//! An operation on the table that is run to its end.

ghost use Rattle.std.specs.Prelude.{◌≡◌, IfOk, OnErr, length};
ghost use Rattle.moka_hist.specs.declared.tables.TableTurn.{TableTurn};
ghost use Rattle.moka_table.specs.Map.{SameMap};
ghost use Rattle.moka_buckets.specs.Hashing.{hash_in};
ghost use Rattle.moka_buckets.specs.KeyOps.{MovesKey, key_of};
ghost use Rattle.moka_buckets.specs.Views.{count_of, map_in};

use moka_buckets::{BucketTable, KeyOp};
use moka_hist::{TableAnswer, TableTurn};
use moka_values::Exact;
use std::alloc::AllocError;
use std::hash::{BuildHasher, Hash};

/// Begins the operation, on a key with this hash, and makes its steps until it has decided. Without
/// memory the map is as before.
pub fn run<K: Eq + Hash + Exact, V: Exact, S: BuildHasher + Drop>(
    table: &mut BucketTable<K, V, S>,
    hash: u64,
    operation: KeyOp<K, V>,
) -> Result<TableAnswer<K, V>, AllocError>
    requires hashed { hash ≡ hash_in S.BuildHasher S.Hasher.Hasher K.hash_input
        table.old.hasher (key_of operation) }
    ensures ok { IfOk result (λ answer. MovesKey K.eq operation
        (map_in S.BuildHasher S.Hasher.Hasher K.eq K.hash_input table.old)
        (count_of table.old) (TableTurn.Decided answer)
        (map_in S.BuildHasher S.Hasher.Hasher K.eq K.hash_input table.new)
        (count_of table.new)) }
    ensures err_map { OnErr result (SameMap
        (map_in S.BuildHasher S.Hasher.Hasher K.eq K.hash_input table.old)
        (map_in S.BuildHasher S.Hasher.Hasher K.eq K.hash_input table.new)) }
    ensures err_count { OnErr result (count_of table.new ≡ count_of table.old) }
    ensures hasher { table.new.hasher ≡ table.old.hasher }
    ensures segments { length table.new.parts ≡ length table.old.parts }
{
    let mut call = table.begin_at(hash, operation);
    loop {
        match table.step_key(&mut call)? {
            TableTurn::Going => {}
            TableTurn::Decided(answer) => return Ok(answer),
        }
    }
}
