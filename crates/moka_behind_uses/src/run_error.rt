//! Why a run comes to no end.

use moka_behind::BehindError;
use std::alloc::AllocError;
use std::io;

/// Why a run comes to no end.
#[derive(Debug, Drop)]
pub(crate) enum RunError {
    /// The database can't be opened, or has no table of pairs.
    Database(sqlite::Error),
    /// A call of the cache gave no answer.
    Cache(BehindError),
    /// The words can't be read, or the answers can't be printed.
    Ends(io::Error),
}

impl From<sqlite::Error> for RunError {
    fn from(error: sqlite::Error) -> RunError {
        RunError::Database(error)
    }
}

impl From<BehindError> for RunError {
    fn from(error: BehindError) -> RunError {
        RunError::Cache(error)
    }
}

impl From<AllocError> for RunError {
    fn from(error: AllocError) -> RunError {
        RunError::Cache(BehindError::from(error))
    }
}

impl From<io::Error> for RunError {
    fn from(error: io::Error) -> RunError {
        RunError::Ends(error)
    }
}
