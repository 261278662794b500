//! The desk stays sound.

ghost use Rattle.moka_laws.specs.Sound.{ClockKeepsSound, DecidingKeepsSound, EnteringKeepsSound, FreshIsSound, LeavingKeepsSound, ReachedIsSound, TellingKeepsSound, VisitsKeepSound};

/// A desk where nothing has happened is sound.
pub fn fresh_is_sound<K: Eq, V, E>()
    ensures sound { FreshIsSound K V E K.eq }
{}

/// Each visit that a sound desk allows leaves it sound.
pub fn visits_keep_sound<K: Eq, V, E>()
    ensures sound { VisitsKeepSound K V E K.eq }
{}

/// A call that leaves a sound desk leaves it sound, if it leaves with no write but one that it
/// holds.
pub fn leaving_keeps_sound<K: Eq, V, E>()
    ensures sound { LeavingKeepsSound K V E K.eq }
{}

/// A sound desk stays sound as a write is decided.
pub fn deciding_keeps_sound<K: Eq, V, E>()
    ensures sound { DecidingKeepsSound K V E K.eq }
{}

/// A sound desk stays sound as an answer is told.
pub fn telling_keeps_sound<K: Eq, V, E>()
    ensures sound { TellingKeepsSound K V E K.eq }
{}

/// A sound desk stays sound as a call number is given out.
pub fn entering_keeps_sound<K: Eq, V, E>()
    ensures sound { EnteringKeepsSound K V E K.eq }
{}

/// A sound desk stays sound as the clock moves on.
pub fn clock_keeps_sound<K: Eq, V, E>()
    ensures sound { ClockKeepsSound K V E K.eq }
{}

/// In every reached state the desk is sound: no write stands twice or with two calls, and each load
/// has one owner and each owner one load.
pub fn reached_is_sound<K: Eq, V, E>()
    ensures sound { ReachedIsSound K V E K.eq }
{}
