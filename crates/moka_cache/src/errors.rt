//! Why a cache is not built, and why a call of one answers no result.
ghost use Rattle.std.specs.Prelude.{◌≡◌};
ghost use Rattle.std.specs.IoError.{error_kind};
ghost use Rattle.std.specs.declared.io.ErrorKind.TheVariants as Kind;
ghost use Rattle.moka_cache.specs.Errors.{build_kind_of, kind_of, refused_by};

use std::alloc::AllocError;
use std::io::ErrorKind;
use std::{error, fmt, io};
use thiserror::Error;

/// Why a cache is not built.
#[derive(Clone, Copy, PartialEq, Eq, Debug, Error)]
pub enum BuildError {
    /// The time to live is longer than 31,536,000,000 seconds, a thousand years of 365 days.
    #[error("time_to_live is longer than 1000 years")]
    TimeToLiveTooLong,
    /// The time to idle is longer than 31,536,000,000 seconds, and the time to live isn't.
    #[error("time_to_idle is longer than 1000 years")]
    TimeToIdleTooLong,
    /// Memory was wanting.
    #[error("out of memory")]
    Memory,
}

impl BuildError {
    /// Why no cache is built of rules that are refused so.
    pub(crate) fn of(refusal: moka_hist::BuildError) -> BuildError
        ensures { result ≡ refused_by refusal }
    {
        match refusal {
            moka_hist::BuildError::TimeToLiveTooLong => BuildError::TimeToLiveTooLong,
            moka_hist::BuildError::TimeToIdleTooLong => BuildError::TimeToIdleTooLong,
            moka_hist::BuildError::Memory => BuildError::Memory,
        }
    }
}

/// `Memory` becomes what an `AllocError` becomes, and a time that is too long an error of the kind
/// `InvalidInput`.
impl From<BuildError> for io::Error {
    ghost from_gives = { λ error told. error_kind told ≡ build_kind_of error };

    fn from(error: BuildError) -> io::Error {
        match error {
            BuildError::TimeToLiveTooLong => io::Error::new(
                ErrorKind::InvalidInput,
                "time_to_live is longer than 1000 years",
            ),
            BuildError::TimeToIdleTooLong => io::Error::new(
                ErrorKind::InvalidInput,
                "time_to_idle is longer than 1000 years",
            ),
            BuildError::Memory => io::Error::from(AllocError),
        }
    }
}

/// What a poll answers in place of its result.
#[derive(Clone, Copy, PartialEq, Eq, Debug, Error)]
pub enum PollError {
    /// The call needs a number, and the greatest was given out before. Each later poll of the state
    /// answers so again.
    #[error("no call number is left")]
    CallsSpent,
    /// Memory was wanting. What was done stands, and the state can be polled again. It would be
    /// answered too where the cache did not allow what the call does next, or where the initializer
    /// or compute that it asked had given no answer: no run is known that comes to that.
    #[error("out of memory")]
    Memory,
}

/// `Memory` becomes what an `AllocError` becomes, and `CallsSpent` an error of the kind `Other`.
impl From<PollError> for io::Error {
    ghost from_gives = { λ error told. error_kind told ≡ kind_of error };

    fn from(error: PollError) -> io::Error {
        match error {
            PollError::CallsSpent => io::Error::other("no call number is left"),
            PollError::Memory => io::Error::from(AllocError),
        }
    }
}

/// Why a load answers no value: the owners that it waited for were dropped 200 times.
#[derive(Clone, Copy, PartialEq, Eq, Debug, Error)]
#[error("200 owners of the load were dropped")]
pub struct RetriesExhausted;

/// It becomes an error of the kind `Other`.
impl From<RetriesExhausted> for io::Error {
    ghost from_gives = { λ _ told. error_kind told ≡ Kind.Other };

    fn from(_error: RetriesExhausted) -> io::Error {
        io::Error::other("200 owners of the load were dropped")
    }
}

/// Why a load that may fail answers no value.
#[derive(Clone, PartialEq, Debug, Drop)]
pub enum LoadError<E> {
    /// The initializer that was run for it gave this error: its own, or that of the load for which
    /// it waited.
    Init(E),
    /// The owners that it waited for were dropped 200 times.
    RetriesExhausted,
}

/// Writes the initializer's error as that writes itself, and else as `RetriesExhausted`.
impl<E: fmt::Display> fmt::Display for LoadError<E> {
    fn fmt<W: fmt::Write>(&self, f: &mut fmt::Formatter<W>) -> fmt::Result {
        match self {
            LoadError::Init(error) => error.fmt(f),
            LoadError::RetriesExhausted => RetriesExhausted.fmt(f),
        }
    }
}

impl<E: fmt::Debug + fmt::Display + Drop> error::Error for LoadError<E> {}
