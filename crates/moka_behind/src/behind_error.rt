//! Why a call of a write-behind cache gave no answer.

ghost use Rattle.std.specs.Prelude.{◌≡◌};
ghost use Rattle.moka_behind.specs.declared.behind_error.BehindError.TheVariants.{Fault, Memory};

use moka_ends::Failed;
use std::alloc::AllocError;

/// Why a call of a write-behind cache gave no answer.
#[derive(Clone, Copy, PartialEq, Eq, Debug)]
pub enum BehindError {
    /// The keeper failed in this call.
    Fault,
    /// There is no memory, in this call or in an earlier one.
    Memory,
}

impl From<Failed> for BehindError {
    ghost from_gives = { λ _ e. e ≡ Fault };

    fn from(_e: Failed) -> BehindError {
        BehindError::Fault
    }
}

impl From<AllocError> for BehindError {
    ghost from_gives = { λ _ e. e ≡ Memory };

    fn from(_e: AllocError) -> BehindError {
        BehindError::Memory
    }
}
