//! A listener that keeps its notices pending until it is let go.

use futures::Future;
use futures::task::{Context, Poll};
use moka_cache::{BuildError, CacheBuilder, Listener, ListenerEnd};
use moka_cache_runs::caches::{Heard, HearsAny};
use moka_hist::Cause;
use std::alloc::{AllocError, Global};
use std::cell::Cell;
use std::sync::Arc;

/// What a listener was told of a record.
#[derive(Clone, Copy, PartialEq, Eq, Debug)]
pub(crate) struct Started {
    notice: u64,
    key: u32,
    value: u32,
    cause: Cause,
}

/// That the value has left key 1, as the call of this number told.
pub(crate) fn left(notice: u64, value: u32, cause: Cause) -> Option<Started> {
    Some(Started {
        notice,
        key: 1,
        value,
        cause,
    })
}

/// What a listener was told first, and last, and how often, and whether it lets its notices go; and
/// how often a call was polled that lets it.
#[derive(Drop)]
pub(crate) struct Board {
    is_open: Cell<bool>,
    started: Cell<u64>,
    first: Cell<Option<Started>>,
    last: Cell<Option<Started>>,
    polls: Cell<u64>,
}

impl Board {
    /// One of a listener that was told nothing, and keeps its notices.
    pub(crate) fn new(alloc: Global) -> Result<Arc<Board, Global>, AllocError> {
        let board = Board {
            is_open: Cell::new(false),
            started: Cell::new(0),
            first: Cell::new(None),
            last: Cell::new(None),
            polls: Cell::new(0),
        };
        Ok(Arc::new(alloc, board)?)
    }

    /// Lets the listener go.
    pub(crate) fn open(&self) {
        self.is_open.set(true);
    }

    // One more record was told.
    fn note(&self, started: Started) {
        if self.started.get() == 0 {
            self.first.set(Some(started));
        }
        self.started.set(self.started.get().saturating_add(1));
        self.last.set(Some(started));
    }

    /// How many records were told, and the first and the last of them.
    pub(crate) fn told(&self) -> (u64, Option<Started>, Option<Started>) {
        (self.started.get(), self.first.get(), self.last.get())
    }

    /// How often a call was polled that lets the listener go.
    pub(crate) fn polls(&self) -> u64 {
        self.polls.get()
    }
}

/// Leaves its notices pending until it is let go.
#[derive(Drop)]
pub(crate) struct KeepListener {
    pub(crate) board: Arc<Board, Global>,
}

impl Listener<u32, u32> for KeepListener {
    fn start(&self, notice: u64, key: &u32, value: &u32, cause: Cause) {
        let board: &Board = &self.board;
        board.note(Started {
            notice,
            key: *key,
            value: *value,
            cause,
        });
    }

    fn poll(&self, _notice: u64, cx: &mut Context<'_>) -> Poll<ListenerEnd> {
        let board: &Board = &self.board;
        if board.is_open.get() {
            return Poll::Ready(ListenerEnd::Done);
        }
        cx.yield_now()
    }
}

impl HearsAny for KeepListener {
    ghost hears_any = { λ listener key value. tt };
}

/// A cache of capacity 100 whose listener is of this board.
pub(crate) fn cache_of(
    alloc: Global,
    board: Arc<Board, Global>,
) -> Result<Heard<KeepListener>, BuildError> {
    CacheBuilder::new(100)
        .eviction_listener(KeepListener { board })
        .build(alloc)
}

/// Lets the listener go after each poll of the future, and counts these.
#[derive(Drop)]
pub(crate) struct Opens<'a, F> {
    pub(crate) future: F,
    pub(crate) board: &'a Board,
}

impl<F: Future> Future for Opens<'_, F> {
    type Output = F::Output;

    ghost can_poll = { λ opens. F.can_poll opens.future };

    fn poll(&mut self, cx: &mut Context<'_>) -> Poll<F::Output> {
        let polled = self.future.poll(cx);
        self.board.open();
        self.board
            .polls
            .set(self.board.polls.get().saturating_add(1));
        polled
    }
}
