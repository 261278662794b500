//! What `run` answers.
ghost use Rattle.std.specs.Prelude.{◌≡◌, IfOk};
ghost use Rattle.moka_hist.specs.State.{State};
ghost use Rattle.moka_machine.specs.Machine.{MachineIs};
ghost use Rattle.moka_run.specs.Report.{Reports};

use moka_hist::{Listing, Reply, TestList, Tests};
use moka_machine::{Machine, NoticeList, PlaceList};
use moka_table::EntryList;
use moka_values::Exact;
use std::alloc::{AllocError, Global};
use std::hash::Hash;

/// The replies of a run, one for each event, in order.
pub type ReplyList<K, V, E> = Listing<Reply<K, V, E>>;

/// The replies of a whole run, and what stands after it: each stored pair once, in any order, each
/// committed write with its place and each notice, both ascending by number, and the test of each
/// registered predicate with its moment, in the order of registering.
#[derive(Drop)]
pub struct Report<K, V, E> {
    pub replies: ReplyList<K, V, E>,
    pub entries: EntryList<K, V>,
    pub places: PlaceList,
    pub notices: NoticeList<K, V>,
    pub tests: TestList,
}

/// Memory was wanting after `done` events, and where the next one is a poll after `steps` steps of
/// it, each of which left its call going. `replies` answers just the events that were done.
#[derive(Drop)]
pub struct Memory<K, V, E> {
    pub done: u64,
    pub steps: u64,
    pub replies: ReplyList<K, V, E>,
}

/// The lists of a report on the machine's state.
#[derive(Drop)]
pub(crate) struct ReportLists<K, V> {
    pub(crate) entries: EntryList<K, V>,
    pub(crate) places: PlaceList,
    pub(crate) notices: NoticeList<K, V>,
    pub(crate) tests: TestList,
}

/// Makes the lists of a report on the machine's state.
pub(crate) fn list_all<K: Eq + Hash + Exact, V: Exact, E: Exact, T: Tests<K, V> + Drop>(
    alloc: Global,
    machine: &Machine<K, V, E, T>,
) -> Result<ReportLists<K, V>, AllocError>
    ensures { IfOk result (λ lists. (s : State K V E) → MachineIs K.eq T.Tests machine.now s
        → Reports K.eq lists.entries lists.places lists.notices lists.tests s) }
{
    Ok(ReportLists {
        entries: machine.entries(alloc)?,
        places: machine.places(alloc)?,
        notices: machine.notices(alloc)?,
        tests: machine.tests(alloc)?,
    })
}

/// The report of these replies and lists.
pub(crate) fn report_of<K, V, E>(
    replies: ReplyList<K, V, E>,
    lists: ReportLists<K, V>,
) -> Report<K, V, E>
    ensures { result ≡ record {
      replies = replies;
      entries = lists.entries;
      places = lists.places;
      notices = lists.notices;
      tests = lists.tests;
    } }
{
    let ReportLists {
        entries,
        places,
        notices,
        tests,
    } = lists;
    Report {
        replies,
        entries,
        places,
        notices,
        tests,
    }
}
