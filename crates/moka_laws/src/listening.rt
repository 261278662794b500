//! Key locks, notices and open asks.

ghost use Rattle.moka_laws.specs.Leaving.{NoticesAsk, ReplacedAreTold, TakenAreTold};
ghost use Rattle.moka_laws.specs.Listening.{AsksAreLive, AsksAreOne, KeptAreTold, KeysAreLocked, LocksAreOne, OffWasTold, ReachedLocksAreHeld, ReachedNoticesAreApart, ReachedNoticesAreInOrder, ReachedNoticesAreSettled, RunningAreHeard};

/// In every reached state under a listener each committed write that replaced a record has one
/// notice, due or opened, and there is no other notice. None was skipped before the listener was
/// off. No write is logged or applied while its notice runs.
pub fn notices_are_settled<K: Eq, V, E>()
    ensures settled { ReachedNoticesAreSettled K V E K.eq }
{}

/// In every reached state a live call holds a key's lock exactly between its locking and its
/// freeing. Without a listener no call does. A number keeps a lock exactly where its call was
/// dropped there while its notice ran, as long as that still runs.
pub fn locks_are_held<K: Eq, V, E>()
    ensures held { ReachedLocksAreHeld K V E K.eq }
{}

/// In every reached state under a listener a live call writes, takes out, looks up for that, and
/// tells the listener of no key but the one whose lock it holds. A notice that keeps a lock runs,
/// and tells of the key of that lock.
pub fn keys_are_locked<K: Eq, V, E>()
    ensures locked { KeysAreLocked K V E K.eq }
    ensures kept { KeptAreTold K V E K.eq }
{}

/// In every reached state locks of equal keys are held under one number: by a live call, or by the
/// running notice of a dropped one.
pub fn locks_are_one<K: Eq, V, E>()
    ensures one { LocksAreOne K V E K.eq }
{}

/// In every reached state the notices of a key were opened in the order of its writes. The earlier
/// one had ended, or was skipped, when the later one was opened.
pub fn notices_are_in_order<K: Eq, V, E>()
    ensures ordered { ReachedNoticesAreInOrder K V E K.eq }
{}

/// In every reached state no two notices of equal keys run.
pub fn notices_are_apart<K: Eq, V, E>()
    ensures apart { ReachedNoticesAreApart K V E K.eq }
{}

/// In every reached state no number has two open asks: while a call's own ask is open, no notice of
/// its number runs.
pub fn asks_are_one<K: Eq, V, E>()
    ensures one { AsksAreOne K V E K.eq }
{}

/// On a reached state under a listener a write that replaces or takes out a record leaves its call
/// with the notice of just that record. The notice asks the listener with the key, that record's
/// value and the cause of its leaving, unless the listener is off.
pub fn notices_tell_left<K: Eq, V, E>()
    ensures replaced { ReplacedAreTold K V E K.eq }
    ensures taken { TakenAreTold K V E K.eq }
    ensures asked { NoticesAsk K V E K.eq }
{}

/// In every reached state an open ask is that of a live call, which waits for the answer. A running
/// notice is heard by a live call, or was left with a write that is still owed: its own call may be
/// gone.
pub fn asks_are_live<K: Eq, V, E>()
    ensures live { AsksAreLive K V E K.eq }
    ensures heard { RunningAreHeard K V E K.eq }
{}

/// In every reached state the listener is off only where it was told so: as the answer to a notice
/// that ran, on a reached state from which some events led here.
pub fn off_was_told<K: Eq, V, E>()
    ensures told { OffWasTold K V E K.eq }
{}
