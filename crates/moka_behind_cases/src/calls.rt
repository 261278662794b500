//! Calls, and their lines.

use std::alloc::AllocError;

/// One call.
#[derive(Clone, Copy, PartialEq, Debug)]
pub enum Call {
    Set(u32, u32),
    Del(u32),
    Get(u32),
    Shed,
    Drain,
}

/// Appends the line of a call.
pub fn push_call(text: &mut String, call: Call) -> Result<(), AllocError> {
    match call {
        Call::Set(key, value) => write!(text, "set {key} {value}\n"),
        Call::Del(key) => write!(text, "del {key}\n"),
        Call::Get(key) => write!(text, "get {key}\n"),
        Call::Shed => text.push_str("shed\n"),
        Call::Drain => text.push_str("drain\n"),
    }
}
