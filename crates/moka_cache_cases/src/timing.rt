//! The clocks of polls, over a clock that is set by hand.

use moka_cache::{Moments, Since, Wall};
use std::cell::Cell;
use std::io;
use std::rt::Clock;
use std::test::Fail;
use std::time::Duration;

/// A clock that tells this, or fails where it has nothing to tell.
#[derive(Drop)]
struct SetClock {
    tells: Cell<Option<Duration>>,
}

impl SetClock {
    fn read(&self) -> io::Result<Duration> {
        match self.tells.get() {
            Some(time) => Ok(time),
            None => Err(io::Error::other("no clock")),
        }
    }
}

impl Clock for SetClock {
    fn monotonic(&self) -> io::Result<Duration> {
        self.read()
    }

    fn since_1970(&self) -> io::Result<Duration> {
        self.read()
    }
}

/// The moment that they give next, as a call asks for it.
fn next_of<M: Moments + Drop>(moments: M) -> u64 {
    let mut moments = moments;
    moments.moment()
}

#[test]
fn a_number_is_always_the_same_moment(rt: HostRuntime) {
    let mut moment = 7u64;
    assert_eq!(rt; moment.moment(), 7);
    assert_eq!(rt; moment.moment(), 7);
}

#[test]
fn a_moment_since_then_is_counted_from_there(rt: HostRuntime) -> Result<(), Fail> {
    let clock = SetClock {
        tells: Cell::new(Some(Duration::from_secs(5))),
    };
    let since = Since::now(&clock)?;
    let cases = [
        (Some(Duration::from_secs(5)), 0),
        (Some(Duration::new(7, 1)), 2_000_000_001),
        (Some(Duration::from_secs(4)), 0),
        (Some(Duration::from_secs(20_000_000_000)), u64::MAX),
        (None, 0),
    ];
    for (tells, want) in cases {
        clock.tells.set(tells);
        assert_eq!(rt; next_of(&since), want, "at {tells:?}");
    }
    assert!(rt; Since::now(&clock).is_err());
    Ok(())
}

#[test]
fn a_moment_of_the_wall_is_counted_from_1970(rt: HostRuntime) {
    let clock = SetClock {
        tells: Cell::new(None),
    };
    let mut wall = Wall::of(&clock);
    let cases = [
        (Some(Duration::new(3, 4)), 3_000_000_004),
        (Some(Duration::from_secs(20_000_000_000)), u64::MAX),
        (None, 0),
    ];
    for (tells, want) in cases {
        clock.tells.set(tells);
        assert_eq!(rt; wall.moment(), want, "at {tells:?}");
    }
}
