//! What is stored.

ghost use Rattle.moka_laws.specs.OwnKeys.{ReachedByLawfulRun, ReachedIsUnderOwnKeys, StoredAreCounted};

/// In every reached state each stored pair stands under its own key.
pub fn stored_under_own_keys<K: Eq, V, E>()
    ensures stored { ReachedIsUnderOwnKeys K V E K.eq }
{}

/// In every reached state the table counts its keys: a list of different keys that are stored is no
/// longer than `keys`.
pub fn stored_are_counted<K: Eq, V, E>()
    ensures counted { StoredAreCounted K V E K.eq }
{}

/// A run through lawful states on a reached state leaves a reached state.
pub fn reached_by_lawful_run<K: Eq, V, E>()
    ensures reached { ReachedByLawfulRun K V E K.eq }
{}
