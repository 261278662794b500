//! One access to the memory.

ghost use Rattle.std.specs.Prelude.{◌≡◌, ℕ, Bool, IfOk, OnErr, Option};
ghost use Rattle.std.specs.Option.{option_copied};
ghost use Rattle.moka_words.specs.Effect.{Effect};
ghost use Rattle.moka_growth.specs.Counts.{Recounts};
ghost use Rattle.moka_calls.specs.Standing.{MayWant};
ghost use Rattle.moka_buckets.specs.Arrays.{ArePlaced, memory_of};
ghost use Rattle.moka_pairs.specs.Keys.{hash_by, own_for};
ghost use Rattle.moka_buckets.specs.Nodes.{Agrees, AreHashed};
ghost use Rattle.moka_buckets.specs.Making.{CanMake};

use crate::array::Arrays;
use crate::node::Node;
use crate::nodes::see_word;
use moka_words::{Access, Seen};
use std::alloc::AllocError;

/// Makes the access, for a call with this key, or with none. Without memory, which only a link
/// takes, nothing has changed.
pub fn make<K: Eq, V>(
    arrays: &mut Arrays,
    nodes: &[Node<K, V>],
    key: Option<&K>,
    access: Access,
) -> Result<Seen, AllocError>
    requires placed { ArePlaced arrays.old }
    requires can { CanMake (memory_of arrays.old) nodes.now access }
    ensures effect { (hash : K → ℕ) (keys : ℕ → Option K) →
        AreHashed hash nodes.now → Agrees keys nodes.now →
        IfOk result (λ saw. Effect (hash_by hash keys)
        (own_for K.eq keys (option_copied key.entry)) access saw
        (memory_of arrays.old) (memory_of arrays.new)) }
    ensures counts { IfOk result (λ saw. Recounts access saw
        (memory_of arrays.old) (memory_of arrays.new)) }
    ensures placed { ArePlaced arrays.new }
    // Where a call may want memory for what it saw, nothing has changed.
    ensures same { IfOk result (λ saw. MayWant access saw
        → memory_of arrays.new ≡ memory_of arrays.old) }
    ensures err { OnErr result (memory_of arrays.new ≡ memory_of arrays.old) }
{
    match access {
        Access::LoadRoot => Ok(arrays.load_root()),
        Access::LoadWord { array, index } => { Ok(see_word(nodes, key, arrays.word(array, index))) }
        Access::Choose { .. } => unreachable!(),
        Access::Exchange {
            array,
            index,
            from,
            to,
        } => Ok(Seen::Exchanged(arrays.exchange(array, index, from, to))),
        Access::LoadNext { array } => Ok(arrays.load_next(array)),
        Access::Link { array, length } => arrays.link(array, length),
        Access::Copy { array, index, to } => {
            arrays.copy(array, index, to);
            Ok(Seen::Copied)
        }
        Access::Swing { from, to } => {
            arrays.swing(from, to);
            Ok(Seen::Swung)
        }
    }
}
