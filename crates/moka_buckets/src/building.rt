//! How a table begins.

ghost use Rattle.std.specs.Prelude.{◌≡◌, ◌⊎◌, ◌<◌, ◌≤◌, ◌^◌, IfOk, [], length, replicate};
ghost use Rattle.std.specs.Int.{IsPowerOfTwo};
ghost use Rattle.moka_words.specs.declared.words.Word.TheVariants.{Empty};
ghost use Rattle.moka_buckets.specs.Building.{AreFresh, HasNone, HasRoot, IsFresh};
ghost use Rattle.moka_buckets.specs.Views.{IsFirst};

use crate::array::{Array, Arrays, Segment};
use crate::linking::MOST_WORDS;
use crate::part::Part;
use moka_words::Word;
use std::alloc::{AllocError, Global};

/// How long the first array of each of so many segments is. Longer than 2^63 is want of memory.
pub fn first_length(capacity: usize, count: usize) -> Result<usize, AllocError>
    requires { 0 < count }
    ensures { IfOk result (λ size. IsFirst capacity count size) }
{
    if capacity == 0 {
        return Ok(0);
    }
    let wanted = capacity.saturating_mul(2) / count;
    if wanted > 1 << 63 {
        return Err(AllocError);
    }
    Ok(wanted.next_power_of_two())
}

/// So many segments without keys, each with a root of so many words, if any.
pub fn new_parts<K: Drop, V: Drop>(
    alloc: Global,
    count: usize,
    size: usize,
) -> Result<Vec<Part<K, V>>, AllocError>
    requires { 0 < size → IsPowerOfTwo size }
    ensures { IfOk result (λ parts. AreFresh count size parts.items) }
{
    let mut parts = Vec::with_capacity(alloc, count)?;
    for _ in 0..count {
        parts.push(new_part(alloc, size)?)?;
    }
    Ok(parts)
}

fn new_part<K: Drop, V: Drop>(alloc: Global, size: usize) -> Result<Part<K, V>, AllocError>
    requires { 0 < size → IsPowerOfTwo size }
    ensures { IfOk result (λ p. IsFresh size p) }
{
    if size == 0 {
        return Ok(part_of(Arrays::none(alloc)));
    }
    let words = vec![in alloc; Word::Empty; size]?;
    let arrays = Arrays::one(alloc, words)?;
    Ok(part_of(arrays))
}

// The segment of these arrays, without nodes.
fn part_of<K: Drop, V: Drop>(arrays: Arrays) -> Part<K, V>
    ensures arrays { result.arrays ≡ arrays }
    ensures nodes { result.nodes.items ≡ [] }
    ensures peak { result.peak ≡ 0 }
{
    Part {
        nodes: Vec::new(arrays.alloc),
        arrays,
        peak: 0,
    }
}

impl Arrays {
    /// No arrays.
    pub fn none(alloc: Global) -> Arrays
        ensures none { HasNone result }
        ensures len { result.segment.len ≡ 0 }
    {
        Arrays {
            alloc,
            all: Vec::new(alloc),
            segment: Segment {
                arrays: Vec::new(alloc),
                rooted: 0,
                len: 0,
            },
        }
    }

    /// One array with these words, which is the root. More than 2^60 are want of memory.
    pub fn one(alloc: Global, words: Vec<Word>) -> Result<Arrays, AllocError>
        ensures root { IfOk result (λ s. HasRoot words.items s) }
        ensures len { IfOk result (λ s. s.segment.len ≡ 0) }
    {
        if words.len() > MOST_WORDS {
            return Err(AllocError);
        }
        let all = vec![in alloc;
            Array {
                place: 0,
                words,
                tombstones: 0,
            },
        ]?;
        let arrays = vec![in alloc; 0]?;
        Ok(Arrays {
            alloc,
            all,
            segment: Segment {
                arrays,
                rooted: 1,
                len: 0,
            },
        })
    }
}
