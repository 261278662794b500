//! How many steps an operation makes in a row.

/// How many steps an operation may make in a row, from its beginning or from the step of another
/// on, where the
/// first arrays were so long and there were never more keys; stops at the greatest number.
pub(crate) fn most_steps(first: u64, peak: usize) -> u64 {
    let words = (peak as u64).saturating_mul(3).saturating_add(first);
    words.saturating_mul(16).saturating_add(32)
}

/// Two operations under way on a table whose first arrays have at most 128 words: whose the latest
/// steps were, how many they are, and how many they may be.
#[derive(Drop)]
pub(crate) struct Pace {
    of_first: bool,
    steps: u64,
    most: u64,
    peak: usize,
}

impl Pace {
    /// None has made a step, and the table has so many keys.
    pub(crate) fn new(keys: usize) -> Self {
        Pace {
            of_first: true,
            steps: 0,
            most: most_steps(128, keys),
            peak: keys,
        }
    }

    /// Counts one more step of the first or of the second, before which there are so many keys. Tells
    /// whether it may still be undecided after it.
    pub(crate) fn is_kept(&mut self, of_first: bool, keys: usize) -> bool {
        self.peak = self.peak.max(keys);
        if of_first != self.of_first {
            self.of_first = of_first;
            self.steps = 0;
            self.most = most_steps(128, self.peak);
        }
        self.steps = self.steps.saturating_add(1);
        self.steps <= self.most
    }
}
