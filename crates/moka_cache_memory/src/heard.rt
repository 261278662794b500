//! A listener that notes what leaves, in room that was made before.

use futures::task::{Context, Poll};
use moka_cache::{Listener, ListenerEnd};
use moka_cache_runs::caches::HearsAny;
use moka_hist::Cause;
use std::alloc::{AllocError, Global};
use std::cell::Cell;
use std::sync::Arc;

/// How many notices there is room for.
const ROOM: usize = 64;

/// A record that left, and whether its notice was polled.
#[derive(Clone, Copy)]
pub(crate) struct Leaving {
    notice: u64,
    pub(crate) key: u32,
    pub(crate) value: u32,
    pub(crate) cause: Cause,
    is_polled: bool,
}

/// What a listener was told, in its order.
#[derive(Drop)]
pub(crate) struct Board {
    pub(crate) places: Vec<Cell<Option<Leaving>>>,
    told: Cell<usize>,
}

impl Board {
    /// One of a listener that was told nothing.
    pub(crate) fn new(alloc: Global) -> Result<Arc<Board, Global>, AllocError> {
        let mut places = Vec::with_capacity(alloc, ROOM)?;
        for _ in 0..ROOM {
            places.push(Cell::new(None))?;
        }
        let told = Cell::new(0);
        Ok(Arc::new(alloc, Board { places, told })?)
    }

    // One more record was told. What finds no room counts alone.
    fn note(&self, leaving: Leaving) {
        if let Some(place) = self.places.get(self.told.get()) {
            place.set(Some(leaving));
        }
        self.told.set(self.told.get().saturating_add(1));
    }

    /// How many records were told.
    pub(crate) fn told(&self) -> usize {
        self.told.get()
    }

    // Whether this notice was polled before. It was polled from then on.
    fn was_polled(&self, notice: u64) -> bool {
        for place in &self.places {
            if let Some(leaving) = place.get()
                && leaving.notice == notice
            {
                place.set(Some(Leaving {
                    is_polled: true,
                    ..leaving
                }));
                return leaving.is_polled;
            }
        }
        true
    }
}

/// Notes each record that leaves. A notice pends at its first poll, and ends at its second.
#[derive(Drop)]
pub(crate) struct NotingListener {
    pub(crate) board: Arc<Board, Global>,
}

impl Listener<u32, u32> for NotingListener {
    fn start(&self, notice: u64, key: &u32, value: &u32, cause: Cause) {
        self.board.note(Leaving {
            notice,
            key: *key,
            value: *value,
            cause,
            is_polled: false,
        });
    }

    fn poll(&self, notice: u64, cx: &mut Context<'_>) -> Poll<ListenerEnd> {
        if self.board.was_polled(notice) {
            return Poll::Ready(ListenerEnd::Done);
        }
        cx.yield_now()
    }
}

impl HearsAny for NotingListener {
    ghost hears_any = { λ listener key value. tt };
}
