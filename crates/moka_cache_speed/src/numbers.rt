//! Calls of caches of numbers: where they come from, and as states.
//!
//! That such a call is a state is shown once here, and not where calls of each kind are made.
ghost use Rattle.std.specs.Prelude.{◌≡◌, nat_eq};
ghost use Rattle.moka_cache.specs.Settings.{rules_of};
ghost use Rattle.moka_cache.specs.Stages.{MayPoll};
ghost use Rattle.moka_cache.specs.Starts.{called};
ghost use Rattle.moka_cache.specs.Suits.{Tells};
ghost use Rattle.moka_cache.specs.declared.stage.Stage.TheVariants as Stage;

use crate::heard::HearsAny;
use futures::task::{Context, Poll};
use moka_cache::{Anything, Asked, Begin, Cache, CacheCall, PollError, State};
use std::sync::Wait;

/// A cache of numbers, with this listener or without one.
pub(crate) type Numbers<L> = Cache<u64, u64, u64, L>;

/// A call of such a cache.
pub(crate) type Call<'a, A, Q, L> = CacheCall<'a, A, u64, u64, u64, Q, L>;

/// Where calls of such a cache come from.
pub(crate) trait Makes<'a, A: Begin<u64, u64, u64>, Q: Asked<u64, u64, u64, Anything>, L> {
    /// The call of this round, which may be run.
    fn make(&self, round: u64) -> Call<'a, A, Q, L>
        ensures may { MayPoll result.stage }
        ensures asks { Q.can_poll result.asked }
        ensures tells { Tells nat_eq (Q.gives result.asked) (called (rules_of result.cache.now)
            A.start) A.output result.stage };
}

/// A call of such a cache, as a state.
pub(crate) struct NumberCall<'a, A, Q, L> {
    call: Call<'a, A, Q, L>,
}

/// The call as a state, where it may be run.
pub(crate) fn numbers<'a, A: Begin<u64, u64, u64>, Q: Asked<u64, u64, u64, Anything>, L>(
    call: Call<'a, A, Q, L>,
) -> NumberCall<'a, A, Q, L>
    requires may { MayPoll call.stage }
    requires asks { Q.can_poll call.asked }
    requires tells { Tells nat_eq (Q.gives call.asked) (called (rules_of call.cache.now) A.start)
        A.output call.stage }
    ensures may { MayPoll result.call.stage }
    ensures asks { Q.can_poll result.call.asked }
    ensures tells { Tells nat_eq (Q.gives result.call.asked)
        (called (rules_of result.call.cache.now) A.start) A.output result.call.stage }
{
    NumberCall { call }
}

impl<R, A, Q, L> State<R> for NumberCall<'_, A, Q, L>
where
    R: Wait,
    A: Begin<u64, u64, u64>,
    Q: Asked<u64, u64, u64, Anything>,
    L: HearsAny,
{
    type Output = A::Output;

    ghost can_poll = { λ n. MayPoll n.call.stage × Q.can_poll n.call.asked
        × Tells nat_eq (Q.gives n.call.asked) (called (rules_of n.call.cache.now) A.start)
        A.output n.call.stage };

    ghost is_spent = { λ n. n.call.stage ≡ Stage.Spent };

    fn poll(
        &mut self,
        rt: &R,
        cx: &mut Context<'_>,
        moment: u64,
    ) -> Poll<Result<A::Output, PollError>> {
        self.call.poll(rt, cx, moment)
    }

    fn cancel(self, rt: &R) {
        let NumberCall { call } = self;
        call.cancel(rt);
    }
}
