//! The pairs of the table's answers, and what closures give of them.

ghost use Rattle.std.specs.Prelude.{◌≡◌, None, Option};
ghost use Rattle.std.specs.Option.{option_map};
ghost use Rattle.moka_hist.specs.Tables.{answer_of};
ghost use Rattle.moka_hist.specs.declared.records.Stored.{Stored};
ghost use Rattle.moka_map.specs.Maps.{entry_of};
ghost use Rattle.moka_map.specs.Calls.{GivesOf};

use moka_hist::{KeyList, TableAnswer};

/// Gives the pair of a table's answer, if it has one.
pub fn pair_in<K: Drop, V: Drop>(answer: TableAnswer<K, V>) -> Option<(K, V)>
    ensures { (o : Option (K × Stored V)) → answer ≡ answer_of o → result ≡ entry_of o }
{
    match answer {
        TableAnswer::None => None,
        TableAnswer::Some { key, stored } => Some((key, stored.value)),
        TableAnswer::Keys(keys) => none_of(keys),
    }
}

// A list of keys has no pair.
fn none_of<K: Drop, V: Drop>(_keys: KeyList<K>) -> Option<(K, V)>
    ensures { result ≡ None }
{
    None
}

/// Calls the closure on the pair, if there is one, and gives what it answers.
pub fn given_of<K: Drop, V: Drop, T, F: FnOnce(&K, &V) -> T>(
    pair: Option<(K, V)>,
    with_entry: F,
) -> Option<T>
    requires { F.IsAlwaysCallable with_entry }
    ensures { GivesOf F.FnOnce with_entry pair result }
{
    match pair {
        None => None,
        Some((key, value)) => Some(with_entry(&key, &value)),
    }
}

/// Gives the value of the pair, if there is one.
pub fn value_in<K: Drop, V: Drop>(pair: Option<(K, V)>) -> Option<V>
    ensures { result ≡ option_map (λ p. p.1) pair }
{
    match pair {
        None => None,
        Some((_, value)) => Some(value),
    }
}
