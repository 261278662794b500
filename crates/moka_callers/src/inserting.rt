//! What an insert that is done has put in.

ghost use Rattle.moka_callers.specs.Inserting.{FreshIsPut, InsertsPutIn, InsertsStand};

/// An insert that answers has put its pair in since its start, stamped with its number, unless the
/// cache is disabled: whatever it waited for, and whoever heard of what it replaced.
pub fn inserts_put_in<K: Eq, V, E>()
    ensures put { InsertsPutIn K V E K.eq }
{}

/// Whatever events follow an insert that answered, each equal key has the value that it put in, or
/// what a later step left there: another value, or nothing.
pub fn inserts_stand<K: Eq, V, E>()
    ensures stands { InsertsStand K V E K.eq }
{}

/// A call that answers a value as its own has put just that value in since its start, under the key
/// for which it was started: a load that answers its value as fresh, an `or_insert` so, and a compute
/// that inserted or replaced. The value is the one that it was started with, or was told. The cache
/// is not disabled.
pub fn fresh_is_put<K: Eq, V, E>()
    ensures put { FreshIsPut K V E K.eq }
{}
