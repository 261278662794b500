//! The tests and predicates that the numbers of a schedule name.

ghost use Rattle.std.specs.Prelude.{◌≡◌};
ghost use Rattle.moka_machine.specs.NumberTest.{is_divided, number_test};

use moka_hist::Tests;

/// Replace tests and predicates of numbers: that of number 0 never holds, and any other where its
/// number divides the value, which of 0 each does.
#[derive(Clone, Copy, PartialEq, Eq, Debug)]
pub struct NumberTests;

impl Tests<u32, u32> for NumberTests {
    ghost answers = { λ it. number_test };

    ghost hides = { λ it. number_test };

    fn holds(&self, test: u64, _key: &u32, value: &u32) -> bool {
        does_divide(test, *value)
    }

    fn does_hide(&self, test: u64, _key: &u32, value: &u32) -> bool {
        does_divide(test, *value)
    }
}

// Whether a number other than 0 divides the value.
fn does_divide(test: u64, value: u32) -> bool
    ensures { result ≡ is_divided test value }
{
    test != 0 && u64::from(value) % test == 0
}
