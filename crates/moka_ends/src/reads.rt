//! Reading a source to its end.

ghost use Rattle.std.specs.Prelude.{◌≡◌, ℕ, ◌+◌, ◌<◌, ◌≤◌, OnErr, IfOk, IsErrOf, length, vec_len};
ghost use Rattle.moka_ends.specs.Bytes.{with_front, GivesAll, GivesSome, IsSpent, HasMoreThan};
ghost use Rattle.std.specs.Bool.{OnTrue, OnFalse};
ghost use Rattle.moka_ends.specs.Faults.{HasRisen};
ghost use Rattle.moka_ends.specs.declared.reads.ReadError.TheVariants.{Fault, Memory};

use crate::{Failed, Source};
use std::alloc::{AllocError, Global};

/// The length of the buffer that a source is read through.
const CHUNK: usize = 4096;

/// Why a source wasn't read to its end.
#[derive(Clone, Copy, PartialEq, Eq, Debug)]
pub enum ReadError {
    /// It gives more bytes than the caller takes.
    TooLong,
    /// A read failed.
    Fault,
    /// There is no memory for what it gives.
    Memory,
}

impl From<Failed> for ReadError {
    ghost from_gives = { λ _ e. e ≡ Fault };

    fn from(_e: Failed) -> ReadError {
        ReadError::Fault
    }
}

impl From<AllocError> for ReadError {
    ghost from_gives = { λ _ e. e ≡ Memory };

    fn from(_e: AllocError) -> ReadError {
        ReadError::Memory
    }
}

/// Reads all that the source has left, and takes at most `most` bytes.
///
/// `TooLong` comes where the source gives more, `Fault` where a read fails, `Memory` where the
/// bytes find no memory, so never of an empty source. What was read before an error is lost, and
/// the rest is still left.
pub fn read_all<S: Source>(alloc: Global, source: &mut S, most: usize) -> Result<Vec<u8>, ReadError>
    ensures all { IfOk result
        (λ bytes. GivesAll (S.left source.old) bytes.items (S.left source.new)) }
    ensures fits { IfOk result (λ bytes. vec_len bytes ≤ most) }
    // errors
    ensures too_long { IsErrOf result ReadError.TooLong → HasMoreThan most (S.left source.old) }
    ensures fault { IsErrOf result ReadError.Fault
        → HasRisen (S.faults source.old) (S.faults source.new) }
    ensures memory { IsErrOf result ReadError.Memory → HasMoreThan 0 (S.left source.old) }
    ensures kept { OnErr result (GivesSome (S.left source.old) (S.left source.new)) }
    ensures faults { S.faults source.old ≤ S.faults source.new }
    ensures calm { ¬ IsErrOf result ReadError.Fault
        → S.faults source.new ≡ S.faults source.old }
    ensures once { S.faults source.new ≤ S.faults source.old + 1 }
{
    let mut bytes = Vec::new(alloc);
    let mut chunk = [0; CHUNK];
    while read_more(source, &mut chunk, &mut bytes, most)? {}
    Ok(bytes)
}

/// Reads once, appends what is read, and answers whether the source may have more.
fn read_more<S: Source>(
    source: &mut S,
    chunk: &mut [u8],
    bytes: &mut Vec<u8>,
    most: usize,
) -> Result<bool, ReadError>
    requires some { 0 < length chunk.old }
    requires fits { vec_len bytes.old ≤ most }
    ensures same { IfOk result (λ more. with_front bytes.new.items (S.left source.new)
        ≡ with_front bytes.old.items (S.left source.old)) }
    ensures fits { IfOk result (λ more. vec_len bytes.new ≤ most) }
    ensures more { IfOk result (λ more. OnTrue more (vec_len bytes.old < vec_len bytes.new)) }
    ensures end { IfOk result (λ more. OnFalse more (IsSpent (S.left source.new))) }
    // errors
    ensures too_long { IsErrOf result ReadError.TooLong
        → HasMoreThan most (with_front bytes.old.items (S.left source.old)) }
    ensures fault { IsErrOf result ReadError.Fault
        → HasRisen (S.faults source.old) (S.faults source.new) }
    ensures memory { IsErrOf result ReadError.Memory → HasMoreThan 0 (S.left source.old) }
    ensures kept { OnErr result (GivesSome (S.left source.old) (S.left source.new)) }
    ensures faults { S.faults source.old ≤ S.faults source.new }
    ensures calm { ¬ IsErrOf result ReadError.Fault
        → S.faults source.new ≡ S.faults source.old }
    ensures once { S.faults source.new ≤ S.faults source.old + 1 }
{
    let count = source.read(chunk)?;
    if count == 0 {
        return Ok(false);
    }
    if count > most - bytes.len() {
        return Err(ReadError::TooLong);
    }
    bytes.extend_from_slice(&chunk[..count])?;
    Ok(true)
}
