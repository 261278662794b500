//! The number of a call.
ghost use Rattle.std.specs.Prelude.{◌≡◌};
ghost use Rattle.moka_hist.specs.Run.{fresh_call};
ghost use Rattle.moka_init.specs.FlowPlan.{call_of};
ghost use Rattle.moka_kept.specs.Rests.{Rests};

use crate::live::Live;
use moka_hist::{Rules, Start};
use moka_init::Flow;

/// How many parts the table of a cache has.
const PARTS: usize = 1;

/// A call number that was given out. It has no `Drop`, so nobody can let it go: the flow of the
/// call is made by it.
pub(crate) struct Number {
    call: u64,
}

impl Number {
    /// This number.
    pub(crate) fn of(call: u64) -> Number
        ensures { result.call ≡ call }
    {
        Number { call }
    }

    /// Makes the fresh flow of a call with this start and number, in a cache of these rules.
    pub(crate) fn begin<K: Drop, V: Drop, E: Drop>(
        self,
        start: Start<K, V>,
        rules: Rules,
    ) -> Live<K, V, E>
        ensures fresh { call_of result ≡ fresh_call 1 rules start }
        ensures number { result.call ≡ self.call }
        ensures rests { Rests result }
    {
        let Number { call } = self;
        Live::of(Flow::new(start, call, rules, PARTS))
    }
}
