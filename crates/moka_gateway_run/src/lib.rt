//! The program `gateway`: the lines of what happens to a gateway, and the text of what it does.
#![tactic(auto)]

mod forms;
mod laws;
mod lines;
mod pieces;
mod playing;
mod programs;
mod replies;

pub use forms::Lines;
pub use laws::{cuts_make_no_difference, gateway_lines_round_trip};
pub use lines::Line;
pub use pieces::{Piece, push_piece};
pub use programs::gateway;
pub use replies::{push_cancel, push_client, push_fetch, push_to};
