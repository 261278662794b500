//! The one fault of a source or a sink.

/// A call of a source or a sink failed, and nothing was read or written by it.
#[derive(Clone, Copy, PartialEq, Eq, Debug)]
pub struct Failed;
