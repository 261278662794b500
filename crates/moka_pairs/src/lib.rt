//! Nodes by their numbers, over the pairs that the numbers name, and what holds of them.
//!
//! The words of `moka_words` name nodes by numbers, and the laws of `moka_growth` speak of numbers
//! alone. Here the numbers have keys and pairs, as a function gives them: so a segment stands for a
//! map. The definitions stand in `specs/`: what keys say of numbers (`Keys`), pairs and the map
//! (`Pairs`), what holds whatever keys are still to come (`Segments`). Each law is the contract of
//! a function that does nothing. To call it is to cite the law.
#![tactic(auto)]

mod dividing;
mod growing;
mod mapping;
mod naming;
mod stepping;

pub use dividing::{segment_keys_are_keys, segment_keys_grow};
pub use growing::{grown_is_maps, grown_is_sound};
pub use mapping::{
    found_is_maps, kept_map_stays, present_has_pair, put_is_counted, put_is_maps,
    removal_is_counted, removal_is_maps,
};
pub use naming::{keys_are_names, own_is_key};
pub use stepping::{
    access_keeps_all, count_is_kept, ending_is_known, fits_all_lasts, going_fits_all,
};
