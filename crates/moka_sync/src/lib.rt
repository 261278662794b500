//! Locks and events that calls poll: who holds one, who waits for it, and who is to be woken.
#![tactic(auto)]

mod call_list;
mod event;
mod mutex;
mod places;
mod rw_lock;
mod tickets;
mod wait_list;
mod wait_place;

pub use call_list::{CallList, Calls};
pub use event::Event;
pub use mutex::PolledMutex;
pub use rw_lock::PolledRwLock;
pub use wait_list::WaitList;
pub use wait_place::WaitPlace;
