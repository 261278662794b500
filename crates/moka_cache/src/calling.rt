//! A closure to a future, as a compute calls it.
ghost use Rattle.std.specs.Prelude.{◌≡◌, Option};
ghost use Rattle.std.specs.Option.{option_copied};
ghost use Rattle.futures.specs.Poll.{IfReady, OnPending};
ghost use Rattle.futures.specs.Task.{IsArmed, Keeps};
ghost use Rattle.moka_hist.specs.declared.entries.Entry.{Entry};
ghost use Rattle.moka_cache.specs.Calls.{CallsTo, CanCall, CanGoOn, WasCalled};

use futures::Future;
use futures::task::{Context, Poll};
use moka_hist::Entry;
use std::mem;

/// How far a closure to a future is: it was not called; or it was, and its future goes. It is over
/// only while it is called.
#[derive(Drop)]
pub(crate) enum Calling<F, G> {
    Uncalled(F),
    Going(G),
    Over,
}

impl<F: Drop, G: Future> Calling<F, G> {
    /// Calls the closure with what was found, with which it may be called, and keeps its future.
    pub(crate) fn call<K, V>(&mut self, found: Option<&Entry<K, V>>)
    where
        F: FnOnce(Option<&Entry<K, V>>) -> G,
        requires { CanCall F.pre F.post G.can_poll self.old (option_copied found) }
        ensures ready { CanGoOn G.can_poll self.new }
        ensures called { WasCalled F.post G.gives self.new (option_copied found.entry) }
        ensures same { (x : _) → CallsTo F.post G.gives self.new x
            → CallsTo F.post G.gives self.old x }
    {
        match mem::replace(self, Calling::Over) {
            Calling::Uncalled(f) => *self = Calling::Going(f(found)),
            _ => unreachable!(),
        }
    }

    /// Goes on with the future that the closure gave.
    pub(crate) fn poll<K, V>(&mut self, cx: &mut Context<'_>) -> Poll<G::Output>
    where
        F: FnOnce(Option<&Entry<K, V>>) -> G,
        requires { CanGoOn G.can_poll self.old }
        // What it gives, and that a poll which gives nothing allows no further output.
        ensures value { IfReady result (CallsTo F.post G.gives self.old) }
        ensures same { OnPending result ((x : _) → CallsTo F.post G.gives self.new x
            → CallsTo F.post G.gives self.old x) }
        // Where it gives nothing.
        ensures called { OnPending result ((found : Option (Entry K V))
            → WasCalled F.post G.gives self.old found
            → WasCalled F.post G.gives self.new found) }
        ensures again { OnPending result (CanGoOn G.can_poll self.new) }
        ensures armed { OnPending result (IsArmed cx.new) }
        ensures kept { Keeps cx.old cx.new }
    {
        match self {
            Calling::Going(future) => future.poll(cx),
            _ => unreachable!(),
        }
    }
}
