//! What a whole poll comes to.

ghost use Rattle.moka_small.specs.Laws.{PollIsPolled, PollIsRefused};

/// A whole poll of a live call replies as `polled` says of the small state that the cache's state is
/// seen as, and leaves a state that is seen as `polled` says. A poll of any other call is refused, and
/// nothing changes.
pub fn poll_is_polled<K: Eq, V, E>()
    ensures polled { PollIsPolled K V E K.eq }
    ensures refused { PollIsRefused K V E K.eq }
{}
