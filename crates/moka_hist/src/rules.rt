//! The rules of a cache, the times of a record, and why a record leaves.

ghost use Rattle.std.specs.Prelude.{◌≡◌};
ghost use Rattle.moka_hist.specs.Visible.{later};

use std::time::Duration;

/// Why a record left the cache.
#[derive(Clone, Copy, PartialEq, Eq, Debug)]
pub enum Cause {
    /// Its time to live or its time to idle was past.
    Expired,
    /// A call removed it, or an invalidation hid it.
    Explicit,
    /// A later write took its place.
    Replaced,
    /// It was chosen to leave, and the cache has a capacity.
    Size,
}

/// What a cache was built with. Where a rule is `None`, there is none.
#[derive(Clone, Copy, PartialEq, Eq, Debug)]
pub struct Rules {
    /// The capacity. It bounds nothing by itself: it says that a record which was chosen for its
    /// size may leave, and 0 that the cache is disabled.
    pub max_capacity: Option<u64>,
    /// How long after its last write a record has expired: from its last nanosecond on no look shows
    /// the record. Until a call takes it out the record stays stored.
    pub time_to_live: Option<Duration>,
    /// How long after its last access a record has expired. A look that shows the record accesses it;
    /// one that misses doesn't.
    pub time_to_idle: Option<Duration>,
    /// Whether a listener hears of records that leave.
    pub listener: bool,
    /// Whether records may be invalidated by a test.
    pub closures: bool,
}

/// The moments that a record is judged by, in nanoseconds: the cache's clock, the moment since
/// which records are valid, where all earlier ones were invalidated, and the record's last write
/// and access.
#[derive(Clone, Copy, PartialEq, Eq, Debug)]
pub struct Times {
    pub clock: u64,
    pub valid_after: Option<u64>,
    pub modified: u64,
    pub accessed: u64,
}

/// Answers the moment that comes the duration after `moment`, in nanoseconds; the greatest moment
/// where there is none.
pub fn later(moment: u64, duration: Duration) -> u64
    ensures { result ≡ later moment duration }
{
    match u64::try_from(duration.as_nanos()) {
        Ok(nanos) => moment.saturating_add(nanos),
        Err(_) => u64::MAX,
    }
}
