//! What loads answer.

ghost use Rattle.moka_shapes.specs.Loads.{LoadsTell};

/// A load answers what follows from what it was told, or from the end of its owner that it read,
/// whatever worlds gave it those. Or it answers the value of a pair that the table gave it, where
/// it judged that a value may be seen; or that it gave up, where an owner was dropped.
pub fn loads_tell<K: Eq, V, E>()
    ensures tells { LoadsTell K V E K.eq }
{}
