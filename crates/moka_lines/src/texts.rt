//! Lines of a text, made of words and numbers.
ghost use Rattle.std.specs.Prelude.{◌≡◌, ◌++◌, decimal, OnOk};
ghost use Rattle.moka_lines.specs.Texts.{ended};

use itoa::Buffer;
use std::alloc::AllocError;

/// Appends words.
#[inline(always)]
pub fn push_words(text: &mut Vec<u8>, words: &str) -> Result<(), AllocError>
    ensures { OnOk result (text.new.items ≡ text.old.items ++ words.now) }
{
    text.extend_from_slice(words.as_bytes())
}

/// Appends a number in decimal. It takes fewer instructions than `write!`.
#[inline(always)]
pub fn push_number(text: &mut Vec<u8>, number: u64) -> Result<(), AllocError>
    ensures { OnOk result (text.new.items ≡ text.old.items ++ decimal number) }
{
    let mut buffer = Buffer::new();
    push_words(text, buffer.format(number))
}

/// Appends a line of words and a number.
#[inline(always)]
pub fn push_line(text: &mut Vec<u8>, words: &str, number: u64) -> Result<(), AllocError>
    ensures { OnOk result (text.new.items ≡ text.old.items ++ ended (words.now ++ decimal number)) }
{
    push_words(text, words)?;
    push_number(text, number)?;
    push_words(text, "\n")
}
