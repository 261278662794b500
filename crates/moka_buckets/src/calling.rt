//! What a table asks of its operations.

ghost use Rattle.std.specs.Prelude.{◌≡◌};
ghost use Rattle.moka_buckets.specs.KeyOps.{key_of};
ghost use Rattle.moka_buckets.specs.Tables.{kind_of};
ghost use Rattle.moka_buckets.specs.Steps.{turn_by};

use crate::key_op::KeyOp;
use moka_calls::TableCall;
use moka_growth::CallKind;
use moka_hist::{TableAnswer, TableTurn};

/// The key of the operation.
pub fn key_of<K, V>(operation: &KeyOp<K, V>) -> &K
    ensures { result.now ≡ key_of operation.now }
{
    match operation {
        KeyOp::Get { key } => key,
        KeyOp::InsertOrModify { key, .. } => key,
        KeyOp::InsertIfAbsent { key, .. } => key,
        KeyOp::RemoveIf { key, .. } => key,
    }
}

/// What its call is for.
pub fn kind_of<K, V>(operation: &KeyOp<K, V>) -> CallKind
    ensures { result ≡ kind_of operation.now }
{
    match operation {
        KeyOp::Get { .. } => CallKind::Get,
        KeyOp::InsertOrModify { .. } => CallKind::Insert,
        KeyOp::InsertIfAbsent { .. } => CallKind::Insert,
        KeyOp::RemoveIf { .. } => CallKind::Remove,
    }
}

/// What the step gives, whose answer is known.
pub fn turn_of<K: Drop, V: Drop>(table: &TableCall, answer: TableAnswer<K, V>) -> TableTurn<K, V>
    ensures { result ≡ turn_by table.now answer }
{
    if table.decided().is_some() {
        TableTurn::Decided(answer)
    } else {
        TableTurn::Going
    }
}
