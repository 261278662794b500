//! A cache that tasks poll: the cache, and the states of its calls.
//!
//! Table and desk stand under one lock. A state's poll makes steps of its call while it holds the
//! lock, and parks its task where the call waits.
#![tactic(auto)]

mod asked;
mod begin;
mod blocking;
mod builder;
mod by_compute;
mod by_init;
mod cache;
mod call;
mod calling;
mod compute;
mod compute_by;
mod compute_with;
mod counting;
mod driver;
mod entry;
mod errors;
mod get;
mod get_with;
mod hearing;
mod init;
mod insert;
mod invalidate;
mod key;
mod moments;
mod optionally_get_with;
mod or_insert;
mod or_insert_with;
mod or_optionally_insert_with;
mod or_try_insert_with;
mod polled;
mod remove;
mod stage;
mod try_compute_with;
mod try_get_with;
mod upsert_with;

pub use asked::{Asked, Nobody};
pub use begin::{Begin, Begun};
pub use builder::CacheBuilder;
pub use by_compute::{ByCompute, ByUpsert, ComputeStage};
pub use by_init::{ByInit, ByInitIf, ByOptionalInit, ByTryInit};
pub use cache::Cache;
pub use call::CacheCall;
pub use compute::Compute;
pub use compute_by::{OpBy, TryOpBy, ValueBy, op_by, try_op_by, value_by};
pub use compute_with::{ComputeWith, ToCompute};
pub use entry::{EntrySelector, OwnedKeyEntrySelector, RefKeyEntrySelector};
pub use errors::{BuildError, LoadError, PollError, RetriesExhausted};
pub use get::{Get, ToGet};
pub use get_with::{GetWith, GetWithIf, ToLoad};
pub use init::Init;
pub use insert::{Insert, ToInsert};
pub use invalidate::{Invalidate, ToInvalidate};
pub use key::CallKey;
pub use moka_facts::{Anything, Fact};
pub use moka_kept::{Left, Listener, ListenerEnd, NoListener};
pub use moka_room::FixedSeed;
pub use moments::{Moments, Since, Wall};
pub use optionally_get_with::{OptionallyGetWith, ToLoadOptionally};
pub use or_insert::{OrInsert, ToInsertEntry};
pub use or_insert_with::{OrInsertWith, OrInsertWithIf, ToLoadEntry};
pub use or_optionally_insert_with::{OrOptionallyInsertWith, ToLoadEntryOptionally};
pub use or_try_insert_with::{OrTryInsertWith, ToTryLoadEntry};
pub use polled::{Polled, State};
pub use remove::{Remove, ToRemove};
pub use try_compute_with::{ToComputeAlone, ToTryCompute, TryComputeAlone, TryComputeWith};
pub use try_get_with::{ToTryLoad, TryGetWith};
pub use upsert_with::{ToUpsert, UpsertWith};
