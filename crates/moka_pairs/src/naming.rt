//! Laws of what keys say of numbers.

ghost use Rattle.moka_pairs.specs.Laws.{KeysAreNames, OwnIsKey};

/// Whatever keys the numbers have: to have equal keys is an equivalence of numbers, and such numbers
/// have one hash.
pub fn keys_are_names<K>()
    ensures names { KeysAreNames K }
{}

/// The numbers that have a call's key have one key, with the hash of the call. A call without a key
/// has none.
pub fn own_is_key<K>()
    ensures own { OwnIsKey K }
{}
