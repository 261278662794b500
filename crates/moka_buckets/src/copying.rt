//! Clones of the keys that a call lists, word by word.

ghost use Rattle.std.specs.Prelude.{◌≡◌, ◌<◌, ◌++◌, IfOk, IsSome, [], length};
ghost use Rattle.std.specs.Bool.{OnFalse, OnTrue};
ghost use Rattle.std.specs.Option.{option_map_or, option_to_list};
ghost use Rattle.std.specs.Vec.{vec_capacity};
ghost use Rattle.moka_hist.specs.declared.tables.TableAnswer.TheVariants as found;
ghost use Rattle.moka_hist.specs.declared.tables.TableTurn.{TableTurn};
ghost use Rattle.moka_buckets.specs.Arrays.{memory_of};
ghost use Rattle.moka_buckets.specs.Keys.{word_over};
ghost use Rattle.moka_buckets.specs.Listed.{keys_at};
ghost use Rattle.moka_buckets.specs.Walks.{carried, word_next};

use crate::array::Arrays;
use crate::keys_call::KeysCall;
use crate::node::Node;
use crate::part::Part;
use crate::part_keys::stored_key;
use crate::words::is_sealed;
use moka_calls::TableCall;
use moka_hist::{KeyList, TableAnswer, TableTurn};
use moka_values::Exact;
use moka_words::Word;
use std::alloc::{AllocError, Global};
use std::mem;

/// The word that the call lists next, where it lists one.
pub fn next_word<K, V>(parts: &[Part<K, V>], call: &KeysCall) -> Option<Word>
    ensures { result ≡ word_over parts.now call.now }
{
    match parts.get(call.segment) {
        None => None,
        Some(part) => word_in(&part.arrays, &call.table),
    }
}

fn word_in(arrays: &Arrays, table: &TableCall) -> Option<Word>
    ensures { result ≡ word_next (memory_of arrays.now) table.now }
{
    match table.lists_next() {
        None => None,
        Some(place) => Some(arrays.word(place.0, place.1)),
    }
}

/// A clone of the key that is stored in the word, if one is.
pub fn next_key<K: Exact, V>(
    nodes: &[Node<K, V>],
    word: Option<Word>,
) -> Result<Option<K>, AllocError>
    ensures { IfOk result (λ key. option_to_list key
        ≡ option_map_or (keys_at nodes.now) word []) }
{
    match word {
        None => Ok(None),
        Some(word) => clone_stored(nodes, word),
    }
}

fn clone_stored<K: Exact, V>(nodes: &[Node<K, V>], word: Word) -> Result<Option<K>, AllocError>
    ensures { IfOk result (λ key. option_to_list key ≡ keys_at nodes.now word) }
{
    match stored_key(nodes, word) {
        None => Ok(None),
        Some(key) => Ok(Some(key.clone()?)),
    }
}

/// Makes room for the key. Without memory nothing has changed.
pub fn make_room<K>(keys: &mut Vec<K>, key: &Option<K>) -> Result<(), AllocError>
    ensures same { keys.new.items ≡ keys.old.items }
    ensures room { IfOk result (λ done. IsSome key.now
        → length keys.new.items < vec_capacity keys.new) }
{
    if key.is_some() {
        keys.reserve(1)?;
    }
    Ok(())
}

/// Adds the key of the word that was listed. A sealed word drops the list, as no word does.
pub fn follow<K: Drop>(keys: &mut Vec<K>, word: Option<Word>, key: Option<K>)
    requires room { IsSome key → length keys.old.items < vec_capacity keys.old }
    ensures { keys.new.items ≡ carried keys.old.items word (option_to_list key) }
{
    match word {
        None => keys.clear(),
        Some(word) if is_sealed(word) => keys.clear(),
        Some(_) => add(keys, key),
    }
}

/// Gives the list where the call has decided, and else nothing yet.
pub fn give<K: Drop, V: Drop>(alloc: Global, keys: &mut Vec<K>, done: bool) -> TableTurn<K, V>
    ensures gives { OnTrue done
        (result ≡ TableTurn.Decided (found.Keys keys.old.items)) }
    ensures goes { OnFalse done
        ((result ≡ TableTurn.Going) × (keys.new.items ≡ keys.old.items)) }
{
    if !done {
        return TableTurn::Going;
    }
    let list = mem::replace(keys, Vec::new(alloc));
    TableTurn::Decided(TableAnswer::Keys(KeyList::from_vec(list)))
}

fn add<K: Drop>(keys: &mut Vec<K>, key: Option<K>)
    requires room { IsSome key → length keys.old.items < vec_capacity keys.old }
    ensures { keys.new.items ≡ keys.old.items ++ option_to_list key }
{
    if let Some(key) = key {
        keys.push_reserved(key);
    }
}
