//! How the first hold of the lock left a call.
ghost use Rattle.std.specs.Prelude.{◌≡◌};
ghost use Rattle.moka_init.specs.FlowPlan.{IsOver};
ghost use Rattle.moka_kept.specs.Entering.{entered_so};

use crate::live::Live;
use crate::stop::Stop;
use moka_hist::Answer;

/// How the first hold of the lock left a call. It has no `Drop`, since the flow of a call that has a
/// number has none.
pub enum Entered<K, V, E> {
    /// No number was left: the greatest one was given out before.
    Spent,
    /// The call has answered, and nothing is left of it.
    Answers(Answer<K, V, E>),
    /// The hold left the call so, which goes on as this flow.
    Goes(Live<K, V, E>, Stop<K, V, E>),
}

impl<K: Drop, V: Drop, E: Drop> Entered<K, V, E> {
    /// The first hold left the call of the flow so. One that has answered needs its flow no more.
    #[inline(always)]
    pub(crate) fn of(flow: Live<K, V, E>, stop: Stop<K, V, E>) -> Self
        requires over { (answer : Answer K V E) → stop ≡ Stop.Answers answer → IsOver flow }
        ensures { result ≡ entered_so flow stop }
    {
        match stop {
            Stop::Going => Entered::Goes(flow, Stop::Going),
            Stop::Waits(task, kept) => Entered::Goes(flow, Stop::Waits(task, kept)),
            Stop::Asks(own) => Entered::Goes(flow, Stop::Asks(own)),
            Stop::Due(due) => Entered::Goes(flow, Stop::Due(due)),
            Stop::Answers(answer) => {
                flow.end();
                Entered::Answers(answer)
            }
            Stop::Memory => Entered::Goes(flow, Stop::Memory),
        }
    }
}
