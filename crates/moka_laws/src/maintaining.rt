//! What maintenance does that no other call disturbs.

ghost use Rattle.moka_laws.specs.Maintaining.{MaintenanceDrains};

/// Maintenance that goes on until it answers, with no step, poll or drop of another call in between,
/// leaves nothing owed, and each write that was owed before it is applied then, once. Calls may be
/// started meanwhile, the clock may move on, and asks may be told.
pub fn maintenance_drains<K: Eq, V, E>()
    ensures drains { MaintenanceDrains K V E K.eq }
{}
