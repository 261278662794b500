//! The caller of `reading` at keys and values that users have.
ghost use Rattle.std.specs.Prelude.{IfOk, nat_eq};
ghost use Rattle.std.specs.Cmp.Lexicographic.{pointwise};
ghost use Rattle.moka_uses.specs.ReadBack.{IsReadBack};

use crate::{Shared, read_back};
use bytes::{ByteStr, Bytes};
use std::alloc::{AllocError, Global};

/// Stores bytes under a name, and reads them back in a second run.
pub fn read_back_text(
    alloc: Global,
    name: ByteStr,
    body: Bytes,
) -> Result<Option<Bytes>, AllocError>
    ensures { IfOk result (λ found. IsReadBack (pointwise nat_eq) name body found) }
{
    read_back(alloc, name, body)
}

/// Stores a value that others may share under a number, and reads it back in a second run: another
/// owner of the same value.
pub fn read_back_shared<T: Drop>(
    alloc: Global,
    number: u64,
    value: Shared<T>,
) -> Result<Option<Shared<T>>, AllocError>
    ensures { IfOk result (λ found. IsReadBack nat_eq number value found) }
{
    read_back(alloc, number, value)
}
