//! The settings of a cache, in numbers.

ghost use Rattle.moka_hist.specs.Settings.{AreRulesOf};

use crate::rules::Rules;
use std::time::Duration;

/// What a schedule sets of its cache. Where a setting is `None`, the cache has no such rule.
#[derive(Clone, Copy, PartialEq, Eq, Debug)]
pub struct Settings {
    /// The capacity; of capacity 0 the cache is disabled.
    pub max_capacity: Option<u64>,
    /// How long after its last write a record has expired, in nanoseconds.
    pub time_to_live: Option<u64>,
    /// How long after its last access a record has expired, in nanoseconds.
    pub time_to_idle: Option<u64>,
    /// Whether a listener hears of records that leave.
    pub listener: bool,
    /// Whether records may be invalidated by predicates.
    pub closures: bool,
    /// What the ids of predicates are drawn from; 0 where it isn't set.
    pub seed: Option<u64>,
}

impl Settings {
    /// Gives rules of these settings.
    pub fn rules(&self) -> Rules
        ensures { AreRulesOf self.now result }
    {
        Rules {
            max_capacity: self.max_capacity,
            time_to_live: self.time_to_live.map(Duration::from_nanos),
            time_to_idle: self.time_to_idle.map(Duration::from_nanos),
            listener: self.listener,
            closures: self.closures,
        }
    }
}
