//! The reference cache, after whose history (`hist`) the crate is named: the plain types of the
//! cache, and the definitions that all contracts speak of.
//!
//! The definitions stand in `specs/`: the state by layer (`State`), what a call has still to do
//! (`Plan`), the visits of the desk (`Visits`), one step (`Step`), runs on events (`Run`), and what
//! a user is promised of every state of a run (`Places`).
#![tactic(auto)]

mod accesses;
mod build_error;
mod entries;
mod events;
mod id;
mod ids;
mod key_list;
mod listing;
mod loads;
mod notices;
mod predicates;
mod record_tests;
mod records;
mod replies;
mod rules;
mod settings;
mod tables;
mod visits;
mod writes;

pub use accesses::{Got, Turn, Want};
pub use build_error::BuildError;
pub use entries::{CompResult, Entry};
pub use events::{Event, Op, Start, Told};
pub use id::Id;
pub use ids::Ids;
pub use key_list::KeyList;
pub use listing::Listing;
pub use loads::{Compute, Kind, Load, Sought};
pub use notices::{Notice, NoticeState};
pub use predicates::{IdList, PredicateError, Registered, TestList};
pub use record_tests::Tests;
pub use records::{Mode, Stored};
pub use replies::{Answer, Ask, Refusal, Reply};
pub use rules::{Cause, Rules, Times, later};
pub use settings::Settings;
pub use tables::{TableAnswer, TableOp, TableTurn};
pub use visits::{Claim, Found, LockTaken, Settled, Takes, Visit};
pub use writes::{Holding, Owed, Place, Write};
