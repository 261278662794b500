//! Which calls give records.

ghost use Rattle.moka_shapes.specs.Walks.{OthersGiveNone};

/// A call that wasn't started to walk gives no record, whatever worlds it meets. So who drives such a
/// call has no item to handle.
pub fn others_give_none<K: Eq, V, E>()
    ensures none { OthersGiveNone K V E K.eq }
{}
