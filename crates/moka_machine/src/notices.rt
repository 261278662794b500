//! The notices of a machine's state: those that were opened, and those that are due.
ghost use Rattle.std.specs.Prelude.{◌≡◌, ◌++◌, ◌∷◌, [], ℕ, true, List, Option, nat_eq, IfOk, OnOk};
ghost use Rattle.std.specs.List.{filter_map};
ghost use Rattle.moka_hist.specs.Finite.{Lists};
ghost use Rattle.moka_hist.specs.State.{Call, DeskPart, State};
ghost use Rattle.moka_hist.specs.Visits.{cause_of};
ghost use Rattle.moka_hist.specs.declared.notices.Notice.{Notice};
ghost use Rattle.moka_hist.specs.declared.notices.NoticeState.TheVariants as notice;
ghost use Rattle.moka_desk.specs.History.{keeps_history};
ghost use Rattle.moka_desk.specs.StandsFor.{StandsFor as DeskStandsFor};
ghost use Rattle.moka_machine.specs.Machine.{MachineIs};
ghost use Rattle.moka_machine.specs.Listed.{AreNotices, all_notices, waiting};

use crate::machine::Machine;
use moka_desk::Desk;
use moka_hist::{Listing, Notice, NoticeState, Tests, Visit};
use moka_values::Exact;
use std::alloc::{AllocError, Global};
use std::hash::Hash;

/// Notices to a listener.
pub type NoticeList<K, V> = Listing<Notice<K, V>>;

impl<K: Eq + Hash + Exact, V: Exact, E: Exact, T: Tests<K, V> + Drop> Machine<K, V, E, T> {
    /// Lists each notice, ascending by number: those that were opened, and as waiting those that
    /// are due, with the cause that they would be opened with now.
    pub fn notices(&self, alloc: Global) -> Result<NoticeList<K, V>, AllocError>
        ensures { IfOk result (λ notices. (s : State K V E) → MachineIs K.eq T.Tests self.now s
            → AreNotices notices s) }
    {
        let mut notices = self.unsorted_notices(alloc)?;
        notices.sort_unstable_by_key(|notice| notice.number);
        Ok(NoticeList::from_vec(notices))
    }

    // Lists the notices in another order: as they were opened, and then those that are due.
    fn unsorted_notices(&self, alloc: Global) -> Result<Vec<Notice<K, V>>, AllocError>
        ensures { IfOk result (λ notices. (s : State K V E) → MachineIs K.eq T.Tests self.now s
            → (calls : List (ℕ × Call K V E)) × Lists nat_eq calls s.calls
            × (notices.items ≡ all_notices calls s)) }
    {
        let due = self.calls.due(alloc)?;
        let mut notices = Vec::new(alloc);
        push_opened(&mut notices, &self.layers.desk, self.layers.desk.opened())?;
        push_due(&mut notices, &self.layers.desk, due)?;
        Ok(notices)
    }
}

// Appends the notices of these numbers that were opened: of all, where the desk keeps a history.
fn push_opened<K: Eq + Hash + Exact, V: Exact, E: Exact>(
    notices: &mut Vec<Notice<K, V>>,
    desk: &Desk<K, V, E>,
    numbers: &[u64],
) -> Result<(), AllocError>
    ensures { OnOk result (keeps_history desk.now ≡ true → (w : DeskPart K V E)
        → DeskStandsFor K.eq desk.now w
        → notices.new.items ≡ notices.old.items ++ filter_map w.notices numbers.now) }
{
    for number in numbers {
        if let Some(notice) = desk.notice(*number)? {
            notices.push(notice)?;
        }
    }
    Ok(())
}

// Appends the notices that these visits are to open, as waiting.
fn push_due<K: Eq + Hash + Exact, V: Exact, E: Exact>(
    notices: &mut Vec<Notice<K, V>>,
    desk: &Desk<K, V, E>,
    due: Vec<Visit<K, V, E>>,
) -> Result<(), AllocError>
    ensures { OnOk result ((w : DeskPart K V E) → DeskStandsFor K.eq desk.now w
        → notices.new.items ≡ notices.old.items ++ filter_map (waiting w) due.items) }
{
    for visit in due {
        if let Some(notice) = waiting(desk, visit) {
            notices.push(notice)?;
        }
    }
    Ok(())
}

// The notice that the visit is to open, as it waits.
fn waiting<K: Eq + Hash + Exact, V: Exact, E: Exact>(
    desk: &Desk<K, V, E>,
    visit: Visit<K, V, E>,
) -> Option<Notice<K, V>>
    ensures { (w : DeskPart K V E) → DeskStandsFor K.eq desk.now w → result ≡ waiting w visit }
{
    match visit {
        Visit::OpenNotice {
            call,
            key,
            value,
            stamp,
            modified,
            cause,
            upsert,
        } => Some(Notice {
            number: call,
            key,
            value,
            cause: desk.cause_of(stamp, modified, cause, upsert),
            state: NoticeState::Waiting,
        }),
        _ => None,
    }
}
