//! What a cache tells of its rules.

ghost use Rattle.std.specs.Prelude.{◌≡◌};

use moka_hist::Rules;
use std::time::Duration;

/// The rules of a cache, as a user may ask for them.
#[derive(Clone, Copy, PartialEq, Eq, Debug)]
pub struct Policy {
    pub rules: Rules,
}

impl Policy {
    /// Answers how many records the cache keeps, where a capacity is set.
    pub fn max_capacity(&self) -> Option<u64>
        ensures { result ≡ self.now.rules.max_capacity }
    {
        self.rules.max_capacity
    }

    /// Answers into how many caches the records are divided: always one.
    pub fn num_segments(&self) -> usize
        ensures { result ≡ 1 }
    {
        1
    }

    /// Answers how long a record is kept after its last write, where that is set.
    pub fn time_to_live(&self) -> Option<Duration>
        ensures { result ≡ self.now.rules.time_to_live }
    {
        self.rules.time_to_live
    }

    /// Answers how long a record is kept after its last access, where that is set.
    pub fn time_to_idle(&self) -> Option<Duration>
        ensures { result ≡ self.now.rules.time_to_idle }
    {
        self.rules.time_to_idle
    }
}
