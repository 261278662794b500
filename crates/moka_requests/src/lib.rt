//! The requests that a client's bytes come to, in whatever pieces they come.
//!
//! A request is a line `get K` and the byte 10. `specs/Requests` says which requests bytes are; a
//! `Reader` tells them as soon as they are due.
#![tactic(auto)]

mod laws;
mod reader;
mod request;

pub use laws::{pieces_make_no_difference, requests_are_of_all_bytes};
pub use reader::Reader;
pub use request::Request;
