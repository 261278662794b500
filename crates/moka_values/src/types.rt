//! The types of the standard library, and of the crate `bytes`, whose clones equal their originals.
ghost use Rattle.std.proofs.Common.{rules};
ghost use Rattle.moka_values.specs.Exactness.{items_exact};

use crate::Exact;
use bytes::{ByteStr, Bytes};

impl Exact for () {
    ghost exact = { λ x y same. same };
}

impl Exact for bool {
    ghost exact = { λ x y same. same };
}

impl Exact for char {
    ghost exact = { λ x y same. same };
}

impl Exact for u8 {
    ghost exact = { λ x y same. same };
}

impl Exact for u16 {
    ghost exact = { λ x y same. same };
}

impl Exact for u32 {
    ghost exact = { λ x y same. same };
}

impl Exact for u64 {
    ghost exact = { λ x y same. same };
}

impl Exact for u128 {
    ghost exact = { λ x y same. same };
}

impl Exact for usize {
    ghost exact = { λ x y same. same };
}

impl Exact for i8 {
    ghost exact = { λ x y same. same };
}

impl Exact for i16 {
    ghost exact = { λ x y same. same };
}

impl Exact for i32 {
    ghost exact = { λ x y same. same };
}

impl Exact for i64 {
    ghost exact = { λ x y same. same };
}

impl Exact for i128 {
    ghost exact = { λ x y same. same };
}

impl Exact for isize {
    ghost exact = { λ x y same. same };
}

impl Exact for f32 {
    ghost exact = { λ x y same. same };
}

impl Exact for f64 {
    ghost exact = { λ x y same. same };
}

impl<'a> Exact for &'a str {
    ghost exact = { λ x y same. same };
}

impl Exact for ByteStr {
    ghost exact = { λ x y same. same };
}

impl Exact for Bytes {
    ghost exact = { λ x y same. same };
}

impl<T: Exact> Exact for Option<T> {
    ghost exact = { Prim.search rules };
}

impl<T: Exact, E: Exact> Exact for Result<T, E> {
    ghost exact = { Prim.search rules };
}

impl<A: Exact, B: Exact> Exact for (A, B) {
    ghost exact = { Prim.search rules };
}

impl<A: Exact, B: Exact, C: Exact> Exact for (A, B, C) {
    ghost exact = { Prim.search rules };
}

impl<T: Exact, const N: usize> Exact for [T; N] {
    ghost exact = { λ xs ys same. items_exact T.exact xs ys same.whole };
}
