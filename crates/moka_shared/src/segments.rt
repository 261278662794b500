//! Where a hash leads.
ghost use Rattle.std.specs.Prelude.{◌≡◌, ◌+◌, ◌*◌, ◌<◌, ◌≤◌, ◌^◌};
ghost use Rattle.std.specs.Int.{IsPowerOfTwo};
ghost use Rattle.moka_words.specs.Arrays.{bucket_at};
ghost use Rattle.moka_shared.specs.Hashing.{segment_of};

/// A bucket: its segment, and its index in the segment's array.
#[derive(Clone, Copy)]
pub(crate) struct Place {
    pub(crate) segment: usize,
    pub(crate) index: usize,
}

/// The segment of a hash, of so many segments.
pub(crate) fn segment_of(segments: usize, hash: u64) -> usize
    requires some { 0 < segments }
    ensures is { result ≡ segment_of segments hash }
    ensures within { result < segments }
{
    ((hash as u128 * segments as u128) >> 64) as usize
}

/// The bucket to which a probe comes after so many others.
pub(crate) fn bucket_at(size: usize, hash: u64, passed: usize) -> usize
    requires power { IsPowerOfTwo size }
    requires small { size ≤ 2 ^ 60 }
    requires within { passed < size }
    ensures bucket { result ≡ bucket_at size hash passed }
    ensures below { result < size }
{
    let mask = size - 1;
    ((hash as usize & mask) + passed) & mask
}

/// The number of the first array of a segment.
pub(crate) fn first_array(segments: usize, segment: usize) -> u64
    requires { segment < segments }
    ensures { result ≡ segment + 1 }
{
    segment as u64 + 1
}

/// Where the bucket of a segment lies among those of all segments, one array after the other.
pub(crate) fn position(segments: usize, size: usize, segment: usize, index: usize) -> usize
    requires count { segments * size < 2 ^ 64 }
    requires segment { segment < segments }
    requires index { index < size }
    ensures is { result ≡ segment * size + index }
    ensures within { result < segments * size }
{
    segment * size + index
}
