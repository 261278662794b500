//! Caches that are built, and those that are refused for their times.

use moka_hist::{BuildError, Rules};
use moka_run::{Machine, NumberTests};
use std::alloc::Global;
use std::test::Fail;
use std::time::Duration;

/// A thousand years of 365 days, in seconds.
const THOUSAND_YEARS: u64 = 31_536_000_000;

/// Why no machine of these times is built, if none is.
fn refusal(alloc: Global, live: Option<Duration>, idle: Option<Duration>) -> Option<BuildError> {
    let rules = Rules {
        max_capacity: None,
        time_to_live: live,
        time_to_idle: idle,
        listener: false,
        closures: false,
    };
    match Machine::<u32, u32, u32, NumberTests>::build(alloc, rules, 8, 0, NumberTests) {
        Ok(machine) => {
            drop(machine);
            None
        }
        Err(e) => Some(e),
    }
}

#[test]
fn a_time_longer_than_a_thousand_years_is_refused(rt: HostRuntime) -> Result<(), Fail> {
    let longest = Some(Duration::from_secs(THOUSAND_YEARS));
    let longer = Some(Duration::new(THOUSAND_YEARS, 1));
    let greatest = Some(Duration::MAX);
    let live = Some(BuildError::TimeToLiveTooLong);
    let idle = Some(BuildError::TimeToIdleTooLong);
    let rows = [
        (None, None, None),
        (longest, None, None),
        (None, longest, None),
        (longest, longest, None),
        (Some(Duration::ZERO), Some(Duration::ZERO), None),
        (longer, None, live),
        (None, longer, idle),
        (longest, longer, idle),
        (longer, longest, live),
        (longer, longer, live),
        (greatest, greatest, live),
        (None, greatest, idle),
    ];
    for (live, idle, want) in rows {
        assert_eq!(rt;
            refusal(rt.alloc(), live, idle),
            want,
            "{live:?} and {idle:?}"
        );
    }
    Ok(())
}
