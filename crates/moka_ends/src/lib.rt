//! Where bytes come from and go to: sources and sinks whose calls may fail, and calls that read
//! all of a source and write all of a piece.
#![tactic(auto)]

mod failed;
mod front;
mod lists;
mod plain;
mod reads;
mod sink;
mod source;
mod streams;
mod writes;

pub use failed::Failed;
pub use lists::{ListSink, ListSource};
pub use plain::{PlainSink, PlainSource};
pub use reads::{ReadError, read_all};
pub use sink::Sink;
pub use source::Source;
pub use streams::{ReadSource, WriteSink};
pub use writes::write_all;
