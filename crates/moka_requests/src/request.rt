//! A request of a client.

ghost use Rattle.std.specs.Prelude.{◌≡◌};
ghost use Rattle.moka_requests.specs.Requests.{key_of, request_of};

use moka_lines::{after, u32_in};

/// A request of a client.
#[derive(Clone, Copy, PartialEq, Eq, Debug)]
pub enum Request {
    /// The value of this key, as `get K` asks for it.
    Get(u32),
    /// A line that is not `get K`, or has more than 64 bytes.
    Bad,
}

/// The request that a line is: `get K`, or one that is bad.
pub(crate) fn request_of(line: &[u8]) -> Request
    ensures { result ≡ request_of line.now }
{
    match key_of(line) {
        Some(key) => Request::Get(key),
        None => Request::Bad,
    }
}

// The key of a line `get K`.
fn key_of(line: &[u8]) -> Option<u32>
    ensures { result ≡ key_of line.now }
{
    u32_in(after(line, b"get ")?)
}
