//! The works, and which key a call is of.

/// What the calls do.
#[derive(Clone, Copy)]
pub(crate) enum Work {
    /// Each looks a key up.
    Get,
    /// Each puts a pair.
    Put,
    /// Of ten calls nine look up, and one puts.
    Mixed,
    /// Each looks up the one key.
    Hot,
}

impl Work {
    /// The work of this word; any other is `Get`.
    pub(crate) fn of(word: &str) -> Work {
        match word {
            "put" => Work::Put,
            "mixed" => Work::Mixed,
            "hot" => Work::Hot,
            _ => Work::Get,
        }
    }

    /// Whether the call puts a pair.
    pub(crate) fn is_put(self, call: u64) -> bool {
        match self {
            Work::Put => true,
            Work::Mixed => call % 10 == 0,
            _ => false,
        }
    }

    /// The key of the call.
    pub(crate) fn key_of(self, call: u64, thread: u64, keys: u64) -> u64 {
        let place = call.wrapping_mul(7919).wrapping_add(thread);
        match self {
            Work::Hot => 0,
            _ => place.checked_rem(keys).unwrap_or(0),
        }
    }
}
