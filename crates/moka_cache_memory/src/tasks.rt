//! How a call is run, once it is made.
ghost use Rattle.std.specs.Prelude.{⊤};

use crate::deeds::Way;
use crate::heard::NotingListener;
use crate::patient::Patient;
use crate::turns::Pair;
use moka_cache::{PollError, Polled, State};
use moka_cache_runs::asks::Asks;
use moka_cache_runs::caches::Heard;
use moka_cache_runs::calls::{Call, Caller, Group};
use moka_cache_runs::replies::{Replies, Reply, reply_of};
use moka_cache_runs::tasks::Task;
use std::alloc::AllocGlobal;
use std::io;
use std::random::RandomSource;
use std::sync::Wait;

/// The cache of the scenario.
pub(crate) type Numbers = Heard<NotingListener>;

/// The call is run by the first task.
#[derive(Drop)]
pub(crate) struct Alone<'a> {
    pub(crate) tasks: &'a Pair,
    pub(crate) way: Way,
}

impl<R: Wait + RandomSource + AllocGlobal> Task<R> for Alone<'_> {
    fn run<S: State<R, Output: Replies>>(self, rt: &R, call: S) -> io::Result<(Reply, Reply)> {
        let answer = match self.way {
            Way::Whole => self.tasks.run(Polled::new(rt, call, 0)),
            Way::Cancelled | Way::Dropped => {
                let call = Patient::new(rt, call, self.way.pends(1), self.way.tries());
                flat(self.tasks.run(call))
            }
        };
        Ok((reply_of(answer), Reply::Dropped))
    }
}

/// The call is run beside another, each by a task of its own, and cancelled at the last of so many
/// polls that pend.
#[derive(Drop)]
pub(crate) struct Beside<'a, G> {
    pub(crate) tasks: &'a Pair,
    pub(crate) way: Way,
    pub(crate) pends: u64,
    pub(crate) cache: &'a Numbers,
    pub(crate) asks: &'a Asks,
    pub(crate) other: &'a Call,
    pub(crate) kind: G,
}

impl<R, G> Task<R> for Beside<'_, G>
where
    R: Wait + RandomSource + AllocGlobal,
    G: Group,
{
    fn run<S: State<R, Output: Replies>>(self, rt: &R, call: S) -> io::Result<(Reply, Reply)> {
        let second = Second {
            tasks: self.tasks,
            way: self.way,
            pends: self.pends,
            first: call,
        };
        let caller = Caller {
            rt,
            cache: self.cache,
            asks: self.asks,
        };
        self.kind.make(&caller, self.other, second)
    }
}

// The other call, beside the first.
struct Second<'a, S> {
    tasks: &'a Pair,
    way: Way,
    pends: u64,
    first: S,
}

impl<R: Wait + RandomSource + AllocGlobal, F: State<R, Output: Replies>> Task<R> for Second<'_, F> {
    ghost is_ready = { λ second. F.can_poll second.first };

    fn run<S: State<R, Output: Replies>>(self, rt: &R, call: S) -> io::Result<(Reply, Reply)> {
        let Second {
            tasks,
            way,
            pends,
            first,
        } = self;
        let one = Patient::new(rt, first, way.pends(pends), way.tries());
        let other = Patient::new(rt, call, way.pends(u64::MAX), way.tries());
        let (first, second) = tasks.run_both(one, other);
        Ok((reply_of(flat(first)), reply_of(flat(second))))
    }
}

// What a call answered, if it did, and was woken until then.
fn flat<T>(ended: Option<Option<Result<T, PollError>>>) -> Option<Result<T, PollError>> {
    match ended {
        Some(answer) => answer,
        None => None,
    }
}
