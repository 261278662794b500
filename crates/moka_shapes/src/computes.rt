//! What computes answer.

ghost use Rattle.moka_shapes.specs.Computes.{ComputesTell};

/// A compute answers what follows from what one of its accesses told it, whatever worlds gave it
/// those: it stored the value, took out what was there, left what was there, or failed with the
/// error. A call that computes alone may else answer what the key has, where one of its accesses
/// found that another compute of the key goes.
pub fn computes_tell<K: Eq, V, E>()
    ensures tells { ComputesTell K V E K.eq }
{}
