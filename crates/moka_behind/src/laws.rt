//! What a true value of a key is.
ghost use Rattle.moka_behind.specs.Telling.{TruthIsOfTheLastWrite};

/// What is true of a key was left by its last `set` or `del`; and where there is none, the keeper had it
/// at the start.
pub fn truth_is_of_the_last_write()
    ensures { TruthIsOfTheLastWrite }
{}
