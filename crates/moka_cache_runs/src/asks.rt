//! How often those were asked whom a call asks.

use crate::replies::Reply;
use std::sync::atomic::{AtomicBool, AtomicU64, Ordering};

/// How a replace test was asked, or a compute was started.
#[derive(Clone, Copy, PartialEq, Eq, Debug)]
pub enum Asked {
    Never,
    /// The test was asked so often.
    Tests(u64),
    /// The compute was started so often, and with this value last.
    Starts(u64, Option<u32>),
}

/// What a call replied, how often its initializer or compute was polled, and how else it was asked.
#[derive(Clone, Copy, PartialEq, Eq, Debug)]
pub struct Told(pub Reply, pub u64, pub Asked);

/// No call.
pub const NOBODY: Told = Told(Reply::Dropped, 0, Asked::Never);

/// Counts how often those were asked whom a call asks, and may let its initializer end early.
#[derive(Drop)]
pub struct Asks {
    polls: AtomicU64,
    tests: AtomicU64,
    starts: AtomicU64,
    /// One more than the value that a compute was started with last, or 0 where there was none.
    found: AtomicU64,
    is_let: AtomicBool,
}

impl Asks {
    /// Nobody was asked.
    pub fn new() -> Asks {
        Asks {
            polls: AtomicU64::new(0),
            tests: AtomicU64::new(0),
            starts: AtomicU64::new(0),
            found: AtomicU64::new(0),
            is_let: AtomicBool::new(false),
        }
    }

    /// One more poll.
    pub fn count_poll(&self) {
        self.polls.fetch_add(1, Ordering::SeqCst);
    }

    /// The replace test is asked once more.
    pub fn count_test(&self) {
        self.tests.fetch_add(1, Ordering::SeqCst);
    }

    /// A compute is started, with this value.
    pub fn count_start(&self, found: Option<u32>) {
        self.starts.fetch_add(1, Ordering::SeqCst);
        match found {
            Some(value) => self.found.store(1 + u64::from(value), Ordering::SeqCst),
            None => self.found.store(0, Ordering::SeqCst),
        }
    }

    /// How often it was polled.
    pub fn polls(&self) -> u64 {
        self.polls.load(Ordering::SeqCst)
    }

    /// Whether an initializer may end early.
    pub fn is_let(&self) -> &AtomicBool {
        &self.is_let
    }

    /// What the call replied, with how it asked.
    pub fn told(&self, reply: Reply) -> Told {
        Told(reply, self.polls(), self.asked())
    }

    // How else it was asked.
    fn asked(&self) -> Asked {
        let starts = self.starts.load(Ordering::SeqCst);
        if starts > 0 {
            return Asked::Starts(starts, self.found());
        }
        match self.tests.load(Ordering::SeqCst) {
            0 => Asked::Never,
            tests => Asked::Tests(tests),
        }
    }

    // The value that a compute was started with last.
    fn found(&self) -> Option<u32> {
        let found = self.found.load(Ordering::SeqCst).checked_sub(1)?;
        u32::try_from(found).ok()
    }
}
