//! What lies under the lock of a cache, and what moves it: table and desk, which stand for a sound
//! world, and the wakers of the tasks whose calls wait.
#![tactic(auto)]

mod brought;
mod carrying;
mod due;
mod ends;
mod entered;
mod entering;
mod ground;
mod guarded;
mod heard;
mod in_hand;
mod kept;
mod leaving;
mod listener;
mod live;
mod locked;
mod looking;
mod number;
mod parked;
mod reaching;
mod stop;

pub use brought::Brought;
pub use due::DueNotice;
pub use entered::Entered;
pub use guarded::Guarded;
pub use heard::{Heard, ListenerEnd};
pub use leaving::Left;
pub use listener::{Listener, NoListener};
pub use live::{Live, is_asking};
pub use parked::ParkedTask;
pub use stop::{OwnAsk, Stop};
