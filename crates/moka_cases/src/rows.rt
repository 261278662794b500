//! What the tests of rows end with.

use std::alloc::AllocError;
use std::process::Abort;

/// The first row that is not as it says, by a number that tells it; None where there is none.
pub type Wrong = Result<Option<u64>, AllocError>;

/// Memory sufficed, and each row is as it says.
pub fn all_right(rt: &impl Abort, wrong: Wrong) {
    assert_eq!(rt; wrong, Ok(None));
}
