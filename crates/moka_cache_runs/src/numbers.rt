//! Calls of caches of numbers, as states.
//!
//! That such a call is a state is shown once here, for keys, values and errors that are numbers,
//! and not where each test hands one on.
ghost use Rattle.std.specs.Prelude.{◌≡◌, nat_eq};
ghost use Rattle.moka_cache.specs.Settings.{rules_of};
ghost use Rattle.moka_cache.specs.declared.stage.Stage.TheVariants as Stage;
ghost use Rattle.moka_cache_runs.specs.Runs.{CanRun};

use crate::caches::HearsAny;
use futures::task::{Context, Poll};
use moka_cache::{Anything, Asked, Begin, CacheCall, FixedSeed, NoListener, PollError, State};
use std::hash::BuildHasher;
use std::sync::Wait;

/// A call of a cache of numbers.
pub struct NumberCall<'a, A, Q, L = NoListener, S: BuildHasher = FixedSeed> {
    call: CacheCall<'a, A, u32, u32, u32, Q, L, S>,
}

/// The call as a state, where it may be run.
pub fn numbers<'a, A: Begin<u32, u32, u32>, Q: Asked<u32, u32, u32, Anything>, L, S: BuildHasher>(
    call: CacheCall<'a, A, u32, u32, u32, Q, L, S>,
) -> NumberCall<'a, A, Q, L, S>
    requires can { CanRun nat_eq A.start A.output Q.can_poll Q.gives (rules_of call.cache.now)
        call.stage call.asked }
    ensures can { CanRun nat_eq A.start A.output Q.can_poll Q.gives
        (rules_of result.call.cache.now) result.call.stage result.call.asked }
{
    NumberCall { call }
}

impl<R, A, Q, L, S> State<R> for NumberCall<'_, A, Q, L, S>
where
    R: Wait,
    A: Begin<u32, u32, u32>,
    Q: Asked<u32, u32, u32, Anything>,
    L: HearsAny,
    S: BuildHasher + Drop,
{
    type Output = A::Output;

    ghost can_poll = { λ n. CanRun nat_eq A.start A.output Q.can_poll Q.gives
        (rules_of n.call.cache.now) n.call.stage n.call.asked };

    ghost is_spent = { λ n. n.call.stage ≡ Stage.Spent };

    fn poll(
        &mut self,
        rt: &R,
        cx: &mut Context<'_>,
        moment: u64,
    ) -> Poll<Result<A::Output, PollError>> {
        self.call.poll(rt, cx, moment)
    }

    fn cancel(self, rt: &R) {
        let NumberCall { call } = self;
        call.cancel(rt);
    }
}
