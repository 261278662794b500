//! When an array is to be made anew.

ghost use Rattle.std.specs.Prelude.{◌≡◌, ◌^◌, ◌≤◌};
ghost use Rattle.moka_words.specs.Rehash.{rehash_op};

/// So many tombstones are many, however long the array is.
const MANY_TOMBSTONES: u64 = 25_000;

/// A shorter array is not made anew in yet fewer words.
const LEAST_TO_SHRINK: u64 = 512;

/// How an array is to be made anew.
#[derive(Clone, Copy, PartialEq, Eq, Debug)]
pub enum RehashOp {
    /// Longer: it is nearly full of keys.
    Expand,
    /// Shorter: it is nearly empty but for tombstones.
    Shrink,
    /// As long as it is, without its tombstones.
    GcOnly,
    /// Not at all.
    Skip,
}

impl RehashOp {
    /// How to make an array of this length anew that has so many tombstones, where its segment has
    /// `len` keys. With many tombstones (25,000, or a tenth of the length) it is `Shrink` where the
    /// length is at least 512 and the keys less the tombstones are fewer than a quarter of it, and
    /// else `GcOnly`. With fewer it is `Expand` where more than seven tenths of the words are keys,
    /// and else `Skip`.
    pub fn new(length: u64, tombstones: u64, len: u64) -> RehashOp
        requires length_fits { length ≤ 2 ^ 60 }
        requires tombstones_fit { tombstones ≤ 2 ^ 60 }
        requires len_fits { len ≤ 2 ^ 60 }
        ensures { result ≡ rehash_op length tombstones len }
    {
        if tombstones >= MANY_TOMBSTONES || 10 * tombstones >= length {
            if length >= LEAST_TO_SHRINK && 4 * len < length + 4 * tombstones {
                RehashOp::Shrink
            } else {
                RehashOp::GcOnly
            }
        } else if 10 * len > 7 * length {
            RehashOp::Expand
        } else {
            RehashOp::Skip
        }
    }
}
