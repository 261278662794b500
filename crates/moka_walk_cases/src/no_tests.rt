//! Tests and predicates of which none holds.

ghost use Rattle.moka_walk_cases.specs.Standing.{no_test};

use moka_hist::Tests;

/// Tests and predicates of which none holds.
#[derive(Clone, Copy, PartialEq, Eq, Debug)]
pub struct NoTests;

impl Tests<u32, u32> for NoTests {
    ghost answers = { λ it. no_test };

    ghost hides = { λ it. no_test };

    fn holds(&self, _test: u64, _key: &u32, _value: &u32) -> bool {
        false
    }

    fn does_hide(&self, _test: u64, _key: &u32, _value: &u32) -> bool {
        false
    }
}
