//! How the nodes of an array are laid out in the one after it.

ghost use Rattle.std.specs.Prelude.{◌≡◌, ℕ, ◌+◌, ◌≤◌, ◌<◌, ◌^◌, IfOk, IfSome, Some, length};
ghost use Rattle.std.specs.Int.{IsPowerOfTwo};
ghost use Rattle.moka_words.specs.Arrays.{bucket_at, first_free};
ghost use Rattle.moka_words.specs.Layout.{placed};
ghost use Rattle.moka_growth.specs.Growing.{laid_out, next_size};
ghost use Rattle.moka_calls.specs.Standing.{IsSizeOf};

use crate::words::is_free;
use moka_words::Word;
use std::alloc::{AllocError, Global};

/// The length of the first array of a segment.
const FIRST_SIZE: usize = 128;

/// Answers the bucket to which a probe comes after `passed` others.
pub fn bucket_at(size: usize, hash: u64, passed: usize) -> usize
    requires power { IsPowerOfTwo size }
    requires small { size ≤ 2 ^ 61 }
    requires within { passed < size }
    ensures bucket { result ≡ bucket_at size hash passed }
    ensures below { result < size }
{
    let mask = size - 1;
    ((hash as usize & mask) + passed) & mask
}

/// Answers how long the array is that follows one of this size with so many stored nodes. Without
/// an array before it, it is the first.
pub fn next_size(array: Option<u64>, size: usize, stored: usize) -> usize
    requires { IsSizeOf array size }
    ensures size { result ≡ next_size array size stored }
    ensures power { IsPowerOfTwo result }
    ensures small { result ≤ 2 ^ 61 }
{
    match array {
        None => FIRST_SIZE,
        Some(_) => grown_size(size, stored),
    }
}

// Twice as long where more than seven tenths of the words are stored nodes.
fn grown_size(size: usize, stored: usize) -> usize
    requires power { IsPowerOfTwo size }
    requires small { size ≤ 2 ^ 60 }
    ensures size { (a : ℕ) → result ≡ next_size (Some a) size stored }
    ensures power { IsPowerOfTwo result }
    ensures small { result ≤ 2 ^ 61 }
{
    if 7 * (size as u128) < 10 * (stored as u128) {
        2 * size
    } else {
        size
    }
}

/// Gives the words of an array of this size in which these nodes stand, each by its hash.
pub fn lay_out(alloc: Global, kept: &[(u64, u64)], size: usize) -> Result<Vec<Word>, AllocError>
    requires power { IsPowerOfTwo size }
    requires small { size ≤ 2 ^ 61 }
    ensures laid { IfOk result (λ laid. laid.items ≡ laid_out kept.now size) }
    ensures long { IfOk result (λ laid. length laid.items ≡ size) }
{
    let mut laid = vec![in alloc; Word::Empty; size]?;
    for (node, hash) in kept {
        place(&mut laid, *node, *hash);
    }
    Ok(laid)
}

// Puts the node into the first free bucket of its probe.
fn place(words: &mut [Word], node: u64, hash: u64)
    requires power { IsPowerOfTwo (length words.old) }
    requires small { length words.old ≤ 2 ^ 61 }
    ensures { words.new ≡ placed (λ n. hash) words.old node }
{
    if let Some(bucket) = first_free(words, hash) {
        words[bucket] = Word::Live(node);
    }
}

// The first bucket of a probe without a key.
fn first_free(words: &[Word], hash: u64) -> Option<usize>
    requires power { IsPowerOfTwo (length words.now) }
    requires small { length words.now ≤ 2 ^ 61 }
    ensures free { result ≡ first_free words.now hash }
    ensures below { IfSome result (λ i. i < length words.now) }
{
    for passed in 0..words.len() {
        let bucket = bucket_at(words.len(), hash, passed);
        if is_free(words[bucket]) {
            return Some(bucket);
        }
    }
    None
}
