//! Why a cache is not built.

ghost use Rattle.std.specs.Prelude.{◌≡◌};
ghost use Rattle.moka_hist.specs.Settings.{is_too_long, refusal_of};

use crate::rules::Rules;
use std::time::Duration;

/// Why a cache was not built.
#[derive(Clone, Copy, PartialEq, Eq, Debug)]
pub enum BuildError {
    /// The time to live is longer than 31,536,000,000 seconds, a thousand years of 365 days.
    TimeToLiveTooLong,
    /// The time to idle is longer than 31,536,000,000 seconds, and the time to live isn't.
    TimeToIdleTooLong,
    /// Memory was wanting.
    Memory,
}

impl Rules {
    /// Answers why no cache of these rules is built, if none is. The time to live is looked at
    /// first. It takes no memory, so want of memory never hides this answer.
    pub fn refusal(&self) -> Option<BuildError>
        ensures { result ≡ refusal_of self.now }
    {
        if too_long(self.time_to_live) {
            Some(BuildError::TimeToLiveTooLong)
        } else if too_long(self.time_to_idle) {
            Some(BuildError::TimeToIdleTooLong)
        } else {
            None
        }
    }
}

/// Answers whether a time is set that is longer than a thousand years, by a nanosecond even.
fn too_long(time: Option<Duration>) -> bool
    ensures { result ≡ is_too_long time }
{
    match time {
        Some(time) => time.as_nanos() > 31_536_000_000_000_000_000,
        None => false,
    }
}
