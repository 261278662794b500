//! What a listener answered, as the next hold of the lock tells it.
ghost use Rattle.std.specs.Prelude.{◌≡◌, false, IfNone, OnSome, nat_eq};
ghost use Rattle.std.specs.HashMap.{get};
ghost use Rattle.moka_hist.specs.State.{DeskPart};
ghost use Rattle.moka_hist.specs.Visits.{is_running};
ghost use Rattle.moka_hist.specs.Telling.{told};
ghost use Rattle.moka_desk.specs.StandsFor.{StandsFor};
ghost use Rattle.moka_kept.specs.Kept.{IsKept};
ghost use Rattle.moka_kept.specs.Taking.{end_told};

use crate::ground::Reach;
use crate::parked::HandedOut;
use moka_facts::Fact;
use moka_values::Exact;
use std::hash::{BuildHasher, Hash};

/// How a listener ends a notice.
#[derive(Clone, Copy, PartialEq, Eq, Debug)]
pub enum ListenerEnd {
    /// It has heard.
    Done,
    /// It has heard, and is to hear of no further record.
    Off,
}

/// The end of a notice, as the listener gave it. It has no `Drop`, so nobody can let it go: the
/// next hold of the lock takes it, and `tell` alone takes it apart.
pub struct Heard {
    notice: u64,
    end: ListenerEnd,
}

impl Heard {
    /// The notice of this number ended so.
    pub fn new(notice: u64, end: ListenerEnd) -> Heard
        ensures notice { result.notice ≡ notice }
        ensures end { result.end ≡ end }
    {
        Heard { notice, end }
    }

    /// Tells the desk that the notice has ended so, and gives those that it hands out. Answers None
    /// where that doesn't run; nothing has changed then.
    pub(crate) fn tell<
        K: Eq + Hash + Exact,
        V: Exact,
        E: Exact,
        S: BuildHasher + Drop,
        P: Fact<K, V>,
    >(self, reach: &mut Reach<K, V, E, S, P>) -> Option<HandedOut>
        requires { IsKept K.eq P.holds (get nat_eq reach.old.ends) reach.old.layers }
        ensures kept { IsKept K.eq P.holds (get nat_eq reach.new.ends) reach.new.layers }
        ensures told { OnSome result ((w : DeskPart K V E)
            → StandsFor K.eq reach.old.layers.desk w
            → StandsFor K.eq reach.new.layers.desk (told w self.notice (end_told self.end))) }
        ensures refused { IfNone result ((w : DeskPart K V E)
            → StandsFor K.eq reach.old.layers.desk w → is_running w self.notice ≡ false) }
    {
        let Heard { notice, end } = self;
        reach.hear(notice, end)
    }
}
