//! What predicates hide, and which of them leave.

ghost use Rattle.moka_laws.specs.Predicates.{HiddenAreAhead, HitAreUnseen, HitStayHit, ItemsAreNotHit, LeavingAreSpent, MaintenanceTakesNothing, OthersLeavePredicates};

/// No look shows a record that a registered predicate hits as the look judges it, and no walk does.
pub fn hit_are_unseen<K: Eq, V, E>()
    ensures unseen { HitAreUnseen K V E K.eq }
    ensures items { ItemsAreNotHit K V E K.eq }
{}

/// A predicate leaves by the last step of maintenance alone, and hides nothing any more then: its
/// moment is past, no moment at or before it is pending, and it holds on no stored record that was
/// written at its moment or earlier. What happens that is no step leaves all of them.
pub fn leaving_are_spent<K: Eq, V, E>()
    ensures spent { LeavingAreSpent K V E K.eq }
    ensures others { OthersLeavePredicates K V E K.eq }
{}

/// As long as maintenance carries a registered predicate, each stored record that this hides is among
/// those that it has still to look at: it will list the record's part or look its key up, or it has
/// found the record and looks next which predicates hide it.
pub fn hidden_are_ahead<K: Eq, V, E>()
    ensures ahead { HiddenAreAhead K V E K.eq }
{}

/// A record that a predicate hits stays hit as long as it stands.
pub fn hit_stay_hit<K: Eq, V, E>()
    ensures hit { HitStayHit K V E K.eq }
{}

/// Maintenance takes no record out, and stores none.
pub fn maintenance_takes_nothing<K: Eq, V, E>()
    ensures nothing { MaintenanceTakesNothing K V E K.eq }
{}
