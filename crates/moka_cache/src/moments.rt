//! Clocks of polls.
ghost use Rattle.std.specs.Prelude.{◌≡◌};

use std::io;
use std::rt::Clock;
use std::time::{Duration, Instant, SystemTime};

/// A clock: it gives the moment of each poll, in nanoseconds.
pub trait Moments {
    /// Gives a moment, in nanoseconds.
    fn moment(&mut self) -> u64;
}

/// Always this moment.
impl Moments for u64 {
    fn moment(&mut self) -> u64
        ensures is { result ≡ self.old }
        ensures same { self.new ≡ self.old }
    {
        *self
    }
}

/// Counts the nanoseconds since it was made. Threads that are lent one count from one beginning.
#[derive(Drop)]
pub struct Since<'a, R> {
    rt: &'a R,
    start: Instant,
}

impl<'a, R: Clock> Since<'a, R> {
    /// Begins to count now. It is an error only where the clock can't be read.
    pub fn now(rt: &'a R) -> io::Result<Self> {
        let start = Instant::now(rt)?;
        Ok(Since { rt, start })
    }
}

/// A moment at which the clock can't be read is 0, which counts as the cache's own.
impl<R: Clock> Moments for &Since<'_, R> {
    fn moment(&mut self) -> u64 {
        match self.start.elapsed(self.rt) {
            Ok(since) => nanos(since),
            Err(_) => 0,
        }
    }
}

/// Tells the nanoseconds since 1970.
#[derive(Drop)]
pub struct Wall<'a, R> {
    rt: &'a R,
}

impl<'a, R: Clock> Wall<'a, R> {
    /// The wall clock of this runtime.
    pub fn of(rt: &'a R) -> Self {
        Wall { rt }
    }
}

/// A moment at which the clock can't be read, or is before 1970, is 0, which counts as the cache's
/// own.
impl<R: Clock> Moments for Wall<'_, R> {
    fn moment(&mut self) -> u64 {
        match SystemTime::UNIX_EPOCH.elapsed(self.rt) {
            Ok(since) => nanos(since),
            Err(_) => 0,
        }
    }
}

// The time in nanoseconds, or the greatest number where there are more.
fn nanos(time: Duration) -> u64 {
    match u64::try_from(time.as_nanos()) {
        Ok(nanos) => nanos,
        Err(_) => u64::MAX,
    }
}
