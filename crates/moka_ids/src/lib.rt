//! The ids of registered predicates: streams of numbers of 128 bits (`moka_hist::Ids`), and their
//! text.
//!
//! `PcgIds` draws ids of version 4 (RFC 9562) from a generator with a seed, so that a schedule gives
//! the same ids each time it is played; `RepeatIds` gives one id for ever.
#![tactic(auto)]

mod pcg_ids;
mod repeat_ids;
#[cfg(test)]
mod tests;
mod text;

pub use pcg_ids::PcgIds;
pub use repeat_ids::RepeatIds;
pub use text::push_id;
