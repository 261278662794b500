//! Notices by what they tell, and the locks that are held while they are heard.

ghost use Rattle.moka_callers.specs.Listening.{NoticesAreLocked, NoticesStandAsOpened};

/// Whatever events follow, a notice is listed with the key, value and cause with which its step
/// opened it, also where the listener was off and it was skipped.
pub fn notices_stand_as_opened<K: Eq, V, E>()
    ensures listed { NoticesStandAsOpened K V E K.eq }
{}

/// While a call hears its own notice it holds the lock of that notice's key.
pub fn notices_are_locked<K: Eq, V, E>()
    ensures locked { NoticesAreLocked K V E K.eq }
{}
