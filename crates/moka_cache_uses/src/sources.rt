//! Where values come from.

use futures::Future;
use futures::task::{Context, Poll};

/// Gives what it has once it was polled so often in vain.
#[derive(Drop)]
pub(crate) struct After<T> {
    pub(crate) polls: u64,
    pub(crate) gives: T,
}

impl<T: Copy + Drop> Future for After<T> {
    type Output = T;

    fn poll(&mut self, cx: &mut Context<'_>) -> Poll<T> {
        if self.polls == 0 {
            return Poll::Ready(self.gives);
        }
        self.polls -= 1;
        cx.yield_now()
    }
}
