//! The history of a table that threads share: what its log says, and what the words and the map are
//! then.
//!
//! All callers write one log, of `Note`s. The definitions stand in `specs/`: what a change says of
//! the map (`Entries`), what the cells of the book hold after some notes (`States`), what a whole
//! log gives (`Logs`), and the rule of the book (`Rules`). Each law is the contract of a function that does nothing. To call it
//! is to cite the law.
#![tactic(auto)]

mod changing;
mod keeping;
mod lasting;
mod moving;
mod note;
mod recording;
mod telling;

pub use changing::{
    announced_keeps_words, changed_sets_word, copied_sets_word, link_adds_array, opened_is_sound,
    rows_keep_words, sealed_sets_word, swung_moves_root,
};
pub use keeping::{
    announcing_keeps, array_announcing_keeps, arrays_have_rows, cell_adding_keeps,
    cell_bringing_keeps, cells_hold_words, changing_keeps, copy_is_there, copying_keeps,
    link_is_there, linking_keeps, look_keeps, numbers_tell_words, opening_is_kept, sealing_keeps,
    swing_is_there, swinging_keeps,
};
pub use lasting::{
    calls_still_fit, found_is_history, front_is_kept, front_lasts, full_array_was_put,
    seals_are_named, tickets_are_spent_once, words_change_by_entries, words_name_pairs,
};
pub use moving::{
    announcing_moves, array_announcing_moves, cell_adding_moves, cell_bringing_moves,
    changing_moves, copying_moves, linking_moves, look_moves, sealing_moves, swinging_moves,
};
pub use note::Note;
pub use recording::{change_is_maps, legal_goes_on, legal_was_legal, map_goes_on};
pub use telling::{entries_go_on, state_goes_on};
