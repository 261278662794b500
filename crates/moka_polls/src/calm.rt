//! Calm states, in which no call is on its way.

ghost use Rattle.moka_polls.specs.Calm.{CalmIsQuiet, FreshIsCalm, StaysCalm};

/// A caller that polls its calls whole finds the cache calm each time. A fresh cache without a
/// listener is calm, and each event but a single step leaves a calm cache calm. Unless it is
/// disabled, such a cache is quiet, as the laws of polls ask for.
pub fn polls_leave_calm<K: Eq, V, E>()
    ensures fresh { FreshIsCalm K V E }
    ensures stays { StaysCalm K V E K.eq }
    ensures quiet { CalmIsQuiet K V E }
{}
