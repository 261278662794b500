//! What calls were answered, counted.

/// How many calls found or inserted a pair, and how many have to be made again.
#[derive(Clone, Copy)]
pub(crate) struct Counts {
    pub(crate) done: u64,
    pub(crate) again: u64,
}

impl Counts {
    /// Of no call.
    pub(crate) fn none() -> Counts {
        Counts { done: 0, again: 0 }
    }

    /// Counts a call that found or inserted a pair, if it did.
    pub(crate) fn count_done(&mut self, is_done: bool) {
        self.done = self.done.wrapping_add(u64::from(is_done));
    }

    /// Counts a call that has to be made again.
    pub(crate) fn count_again(&mut self) {
        self.again = self.again.wrapping_add(1);
    }

    /// Adds these calls.
    pub(crate) fn add(&mut self, other: Counts) {
        self.done = self.done.wrapping_add(other.done);
        self.again = self.again.wrapping_add(other.again);
    }
}
