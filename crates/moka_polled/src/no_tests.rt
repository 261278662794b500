//! Tests and predicates of records, of which none holds.

use moka_hist::Tests;

/// Tests and predicates of records, of which none holds.
#[derive(Clone, Copy, PartialEq, Eq, Debug)]
pub struct NoTests;

impl<K, V> Tests<K, V> for NoTests {
    ghost use Rattle.moka_polled.specs.Tests.{no_test};

    ghost answers = { λ it. no_test };

    ghost hides = { λ it. no_test };

    fn holds(&self, _test: u64, _key: &K, _value: &V) -> bool {
        false
    }

    fn does_hide(&self, _test: u64, _key: &K, _value: &V) -> bool {
        false
    }
}
