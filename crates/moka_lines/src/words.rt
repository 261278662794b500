//! The parts of a line: numbers, and the two sides of a mark.

ghost use Rattle.std.specs.Prelude.{
  ◌≡◌,
  ◌==◌,
  ◌<◌,
  ◌≤◌,
  ◌^◌,
  length,
  map,
  take,
  IsSome,
  IfSome,
  IfNone,
};
ghost use Rattle.std.specs.List.{position_or_len};
ghost use Rattle.std.specs.Simd.Lanes.{mask_l};
ghost use Rattle.std.specs.Str.Parse.{AllDigits, digits_value};
ghost use Rattle.std.specs.Option.{option_copied};
ghost use Rattle.moka_lines.specs.Words.{u64_in, u32_in, after, before_byte, after_byte};

use std::simd::prelude::*;

/// How many digits a number of 64 bits has room for, whichever they are.
const SHORT: usize = 19;

/// The value of so few decimal digits: none where a byte is no digit.
fn short_value(digits: &[u8]) -> Option<u64>
    requires { length digits.now ≤ SHORT }
    ensures digits { IsSome result → AllDigits 10 digits.now }
    ensures value { IfSome result (λ n. n ≡ digits_value 10 digits.now) }
    ensures none { IfNone result (¬ AllDigits 10 digits.now) }
{
    let mut number: u64 = 0;
    for digit in digits {
        if !digit.is_ascii_digit() {
            return None;
        }
        number = number * 10 + u64::from(*digit - b'0');
    }
    Some(number)
}

/// The value of decimal digits: none where a byte is no digit, or where it needs more than 64 bits.
fn value_of(digits: &[u8]) -> Option<u64>
    ensures digits { IsSome result → AllDigits 10 digits.now }
    ensures value { IfSome result (λ n. n ≡ digits_value 10 digits.now) }
    ensures none { IfNone result (AllDigits 10 digits.now → 2 ^ 64 ≤ digits_value 10 digits.now) }
{
    if digits.len() <= SHORT {
        return short_value(digits);
    }
    let mut number: u64 = 0;
    for digit in digits {
        if !digit.is_ascii_digit() {
            return None;
        }
        number = number
            .checked_mul(10)?
            .checked_add(u64::from(*digit - b'0'))?;
    }
    Some(number)
}

/// Reads a number of 64 bits: `0`, or decimal digits without a leading zero. None where the bytes
/// spell no such number.
pub fn u64_in(digits: &[u8]) -> Option<u64>
    ensures { result ≡ u64_in digits.now }
{
    if digits.is_empty() {
        return None;
    }
    if digits[0] == b'0' && digits.len() > 1 {
        return None;
    }
    value_of(digits)
}

/// Reads a number of 32 bits, as [`u64_in`] does one of 64.
pub fn u32_in(digits: &[u8]) -> Option<u32>
    ensures { result ≡ u32_in digits.now }
{
    u32::try_from(u64_in(digits)?).ok()
}

/// Answers what the line has after these bytes at its front, or None where it begins otherwise. The
/// first byte that differs ends the search, which takes less than `strip_prefix` where most lines
/// begin otherwise.
#[inline(always)]
pub fn after<'a>(line: &'a [u8], front: &[u8]) -> Option<&'a [u8]>
    ensures { option_copied result ≡ after front.now line.now }
{
    if line.len() < front.len() {
        return None;
    }
    let mut same = 0;
    while same < front.len() {
        if line[same] != front[same] {
            return None;
        }
        same += 1;
    }
    Some(&line[same..])
}

/// How many bytes stand before the first such byte: all where there is none.
fn place_of(bytes: &[u8], mark: u8) -> usize
    ensures { result ≡ position_or_len (λ b. b == mark) bytes.now }
{
    let mut first = 0;
    // Four at a turn take about half the instructions that they take one by one.
    while bytes.len() - first >= 4 {
        if bytes[first] == mark {
            return first;
        }
        let second = first + 1;
        if bytes[second] == mark {
            return second;
        }
        let third = second + 1;
        if bytes[third] == mark {
            return third;
        }
        let fourth = third + 1;
        if bytes[fourth] == mark {
            return fourth;
        }
        first = fourth + 1;
    }
    while first < bytes.len() && bytes[first] != mark {
        first += 1;
    }
    first
}

/// How many bytes are compared with a mark at once.
const WIDE: usize = 32;

/// Which of so many first bytes are the mark, a bit each: the lowest is the first byte's.
#[inline(always)]
fn marks_of(bytes: &[u8], mark: u8) -> u64
    requires { WIDE ≤ length bytes.now }
    ensures { result ≡ mask_l (map (λ b. b == mark) (take WIDE bytes.now)) }
{
    u8x32::from_slice(bytes)
        .simd_eq(u8x32::splat(mark))
        .to_bitmask()
}

/// How many bytes stand before the first such byte: all where there is none. It takes least where
/// the byte is near and others follow it.
#[inline(always)]
fn near_place_of(bytes: &[u8], mark: u8) -> usize
    ensures { result ≡ position_or_len (λ b. b == mark) bytes.now }
{
    if bytes.len() >= WIDE {
        let marks = marks_of(bytes, mark);
        if marks != 0 {
            return marks.trailing_zeros() as usize;
        }
    }
    place_of(bytes, mark)
}

/// What stands before the first such byte, whose place is given, and what stands after it. Where
/// there is none, all stands before it.
#[inline(always)]
fn cut_at(bytes: &[u8], mark: u8, place: usize) -> (&[u8], &[u8])
    requires { place ≡ position_or_len (λ b. b == mark) bytes.now }
    ensures front { result.0.now ≡ before_byte mark bytes.now }
    ensures rest { result.1.now ≡ after_byte mark bytes.now }
    ensures shorter { 0 < length bytes.now → length result.1.now < length bytes.now }
{
    if place < bytes.len() {
        (&bytes[..place], &bytes[place + 1..])
    } else {
        (bytes, &[])
    }
}

/// Cuts the bytes at the first such byte: what stands before it, and what stands after it. Where
/// there is none, all stands before it.
pub fn cut(bytes: &[u8], mark: u8) -> (&[u8], &[u8])
    ensures front { result.0.now ≡ before_byte mark bytes.now }
    ensures rest { result.1.now ≡ after_byte mark bytes.now }
    ensures shorter { 0 < length bytes.now → length result.1.now < length bytes.now }
{
    cut_at(bytes, mark, place_of(bytes, mark))
}

/// Cuts off the first line: the line without its end, and what stands after that. Where no line
/// ends, all is one.
#[inline(always)]
pub fn cut_line(bytes: &[u8]) -> (&[u8], &[u8])
    ensures front { result.0.now ≡ before_byte 10 bytes.now }
    ensures rest { result.1.now ≡ after_byte 10 bytes.now }
    ensures shorter { 0 < length bytes.now → length result.1.now < length bytes.now }
{
    cut_at(bytes, b'\n', near_place_of(bytes, b'\n'))
}
