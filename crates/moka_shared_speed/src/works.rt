//! The works, and which key a call is of.

/// What the calls do.
#[derive(Clone, Copy)]
pub(crate) enum Work {
    /// Each looks up a key that stands.
    Get,
    /// Each looks up a key that doesn't stand.
    Miss,
    /// Each inserts a new key.
    Insert,
    /// Each of these works, one after the other.
    All,
}

impl Work {
    /// The work of this word; any other is `All`.
    pub(crate) fn of(word: &str) -> Work {
        match word {
            "get" => Work::Get,
            "miss" => Work::Miss,
            "insert" => Work::Insert,
            _ => Work::All,
        }
    }

    /// The word of this work.
    pub(crate) fn word(self) -> &'static str {
        match self {
            Work::Get => "get",
            Work::Miss => "miss",
            Work::Insert => "insert",
            Work::All => "all",
        }
    }

    /// Whether the calls insert.
    pub(crate) fn is_insert(self) -> bool {
        matches!(self, Work::Insert)
    }

    /// The key that the look-up of this number is for, where the keys below so many stand.
    pub(crate) fn key_of(self, number: u64, keys: u64) -> u64 {
        let place = number.wrapping_mul(7919).checked_rem(keys).unwrap_or(0);
        match self {
            Work::Miss => place.wrapping_add(keys),
            _ => place,
        }
    }
}
