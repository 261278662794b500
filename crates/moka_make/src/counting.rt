//! Counting writes by place.

ghost use Rattle.std.specs.Prelude.{◌≡◌, count_by};
ghost use Rattle.moka_make.specs.Summing.{is_applied, is_logged, is_owed};

use moka_hist::Place;

/// Counts the writes that dropped calls left.
pub(crate) fn owed_in(places: &[(u64, Place)]) -> usize
    ensures { result ≡ count_by is_owed places.now }
{
    places
        .iter()
        .filter(|place| matches!(place.1, Place::Owed))
        .count()
}

/// Counts the writes in the log.
pub(crate) fn logged_in(places: &[(u64, Place)]) -> usize
    ensures { result ≡ count_by is_logged places.now }
{
    places
        .iter()
        .filter(|place| matches!(place.1, Place::Logged))
        .count()
}

/// Counts the writes that maintenance has applied.
pub(crate) fn applied_in(places: &[(u64, Place)]) -> usize
    ensures { result ≡ count_by is_applied places.now }
{
    places
        .iter()
        .filter(|place| matches!(place.1, Place::Applied))
        .count()
}
