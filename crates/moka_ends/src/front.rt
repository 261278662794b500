//! The front of a piece of bytes.

ghost use Rattle.std.specs.Prelude.{◌≡◌, min, take, drop, length};

/// Copies the first bytes of `from` to the front of `buf`: as many as both have, at most `most`.
/// Answers how many.
pub(crate) fn copy_front(from: &[u8], buf: &mut [u8], most: usize) -> usize
    ensures count { result ≡ min (min (length from.now) (length buf.old)) most }
    ensures copied { take result buf.new ≡ take result from.now }
    ensures rest { drop result buf.new ≡ drop result buf.old }
{
    let count = from.len().min(buf.len()).min(most);
    buf[..count].copy_from_slice(&from[..count]);
    count
}
