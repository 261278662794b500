//! How the arrays of a segment grow, word by word, while calls run, and what holds of it.
//!
//! The definitions stand in `specs/`: the course of a call, one access a step (`Calls`), what a
//! segment keeps (`Sound`), what a call knows (`Fits`), what becomes of the map that the words
//! stand for (`Maps`), what a call lists (`Listing`), and how long arrays and calls get (`Left`).
//! Each law is the contract of a function that does nothing. To call it is to cite the law.
#![tactic(auto)]

mod beginning;
mod bounded;
mod keeping;
mod kinds;
mod lasting;
mod listing;
mod mapping;
mod turning;

pub use beginning::{count_stays, empty_is_root, laid_is_root, none_is_sound, one_is_sound};
pub use bounded::{left_falls, left_is_bounded, short_grows, short_stays};
pub use keeping::{access_is_later, access_keeps_sound, elsewhere_keeps_sound, unsealed_is_roots};
pub use kinds::CallKind;
pub use lasting::{call_fits, fits_goes_on, fits_lasts, later_memory_goes_on};
pub use listing::{
    listed_key_ends, listed_key_goes_on, listed_key_lasts, listing_ends, listing_goes_on,
    listing_lasts,
};
pub use mapping::{ending_is_maps, going_keeps_map, present_is_mine, present_is_one};
pub use turning::{access_can_be_made, each_order_is_good, turn_is_maps};
