//! Committed writes, and the places where they stand until they are applied.
ghost use Rattle.std.specs.Prelude.{◌≡◌};
ghost use Rattle.moka_hist.specs.Visits.{number_of};

/// A committed write: the call that made it, and the stamp of the record that it replaced or took
/// out.
#[derive(Clone, Copy, PartialEq, Eq, Debug)]
pub enum Write {
    Upsert { number: u64, old: Option<u64> },
    Remove { number: u64, old: u64 },
}

impl Write {
    /// The number of the call that made the write.
    pub fn number(&self) -> u64
        ensures { result ≡ number_of self.now }
    {
        match self {
            Write::Upsert { number, .. } | Write::Remove { number, .. } => *number,
        }
    }
}

/// What a call holds of writes: the place of a write of its own number, with the moment that it
/// took for it as long as that write isn't decided; or an owed write that it took up. A moment is
/// in nanoseconds.
#[derive(Clone, Copy, PartialEq, Eq, Debug)]
pub enum Holding {
    Own { pending: Option<u64> },
    TookUp { write: Write },
}

/// A committed write that is still to be posted, and the number of its notice where a listener is
/// still being told of it.
#[derive(Clone, Copy, PartialEq, Eq, Debug)]
pub struct Owed {
    pub write: Write,
    pub notice: Option<u64>,
}

/// Where a committed write stands: with the call that made it or took it up; left by a dropped
/// call; in the write log; or applied by maintenance.
#[derive(Clone, Copy, PartialEq, Eq, Debug)]
pub enum Place {
    Held,
    Owed,
    Logged,
    Applied,
}
