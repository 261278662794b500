//! The answer of a replace test, in hand for the visit that judges by it.

ghost use Rattle.std.specs.Prelude.{false};

use moka_hist::Tests;

/// The replace tests of a cache: each answers what is in hand. That is put there before each visit
/// that judges by one, since a call's own test is asked without the lock. No predicate holds, since
/// none is registered in a cache that tasks poll.
#[derive(Drop)]
pub(crate) struct InHand {
    pub(crate) replaced: bool,
}

impl<K, V> Tests<K, V> for InHand {
    ghost answers = { λ hand test key value. hand.replaced };

    ghost hides = { λ hand test key value. false };

    fn holds(&self, _test: u64, _key: &K, _value: &V) -> bool {
        self.replaced
    }

    fn does_hide(&self, _test: u64, _key: &K, _value: &V) -> bool {
        false
    }
}
