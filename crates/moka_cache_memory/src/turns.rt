//! Two tasks of one thread, and the turns in which they are polled.
ghost use Rattle.std.specs.Prelude.{IfSome};

use futures::Future;
use futures::task::{Doorbell, Poll, Solo};
use std::alloc::AllocGlobal;
use std::io;
use std::random::RandomSource;

/// How many turns a future is given at most.
const TURNS: u32 = 10_000;

/// Two tasks, which are there before the calls are, and take no memory for these.
#[derive(Drop)]
pub(crate) struct Pair {
    first: Solo,
    second: Solo,
}

impl Pair {
    pub(crate) fn new<R: RandomSource + AllocGlobal>(rt: &R) -> io::Result<Pair> {
        Ok(Pair {
            first: Solo::new(rt, Doorbell::spinning())?,
            second: Solo::new(rt, Doorbell::spinning())?,
        })
    }

    /// Runs a future to its output, by the first task. Answers None where nobody woke it.
    pub(crate) fn run<F: Future<Output: Drop>>(&self, future: F) -> Option<F::Output>
        requires { F.can_poll future }
    {
        let mut one = Running::new(&self.first, future);
        for _ in 0..TURNS {
            if !one.go() {
                break;
            }
        }
        one.output
    }

    /// Runs two futures to their outputs, each by a task of its own. Answers None of one that nobody
    /// woke.
    pub(crate) fn run_both<F, G>(
        &self,
        first: F,
        second: G,
    ) -> (Option<F::Output>, Option<G::Output>)
    where
        F: Future<Output: Drop>,
        G: Future<Output: Drop>,
        requires first { F.can_poll first }
        requires second { G.can_poll second }
    {
        let mut one = Running::new(&self.first, first);
        let mut other = Running::new(&self.second, second);
        for _ in 0..TURNS {
            let went = one.go();
            if !other.go() && !went {
                break;
            }
        }
        (one.output, other.output)
    }
}

// A future, until it gave its output, and its task.
#[derive(Drop)]
struct Running<'a, F: Future> {
    task: &'a Solo,
    future: Option<F>,
    output: Option<F::Output>,
    is_new: bool,
}

impl<'a, F: Future<Output: Drop>> Running<'a, F> {
    fn new(task: &'a Solo, future: F) -> Self
        requires { F.can_poll future }
        ensures { IfSome result.future F.can_poll }
    {
        Running {
            task,
            future: Some(future),
            output: None,
            is_new: true,
        }
    }

    // Polls the future, if there is one and it was woken since its last poll. Tells whether it did.
    fn go(&mut self) -> bool
        requires { IfSome self.old.future F.can_poll }
        ensures { IfSome self.new.future F.can_poll }
    {
        if !self.is_new && !is_woken(self.task) {
            return false;
        }
        self.is_new = false;
        match self.future.take() {
            Some(future) => {
                self.poll(future);
                true
            }
            None => false,
        }
    }

    // Polls this future, and keeps it where it pends. The task can be used again where it doesn't.
    fn poll(&mut self, future: F)
        requires can { F.can_poll future }
        requires kept { IfSome self.old.future F.can_poll }
        ensures { IfSome self.new.future F.can_poll }
    {
        let mut future = future;
        let mut cx = self.task.begin();
        match future.poll(&mut cx) {
            Poll::Ready(output) => {
                let _: Poll<()> = cx.yield_now();
                self.output = Some(output);
            }
            Poll::Pending => self.future = Some(future),
        }
        cx.park();
    }
}

// Whether the task was woken since its last poll began.
fn is_woken(task: &Solo) -> bool {
    match task.sleep() {
        Some(asleep) => {
            asleep.end();
            false
        }
        None => true,
    }
}
