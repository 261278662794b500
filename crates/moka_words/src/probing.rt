//! Laws of probes.

ghost use Rattle.moka_words.specs.Laws.{FirstFreeIsReached, ProbeComesToEach};

/// A probe comes to each bucket, after fewer others than there are buckets.
pub fn probe_comes_to_each()
    ensures comes { ProbeComesToEach }
{}

/// The first free bucket of a probe has no key, and the probe comes there past buckets with keys
/// alone. Where it finds none, every bucket has a key.
pub fn first_free_is_reached()
    ensures reached { FirstFreeIsReached }
{}
