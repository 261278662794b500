//! Initializers that are asked what a load gives.
ghost use Rattle.std.specs.Prelude.{◌≡◌, IfSome, IsSomeAnd};
ghost use Rattle.std.specs.Fn.{CalledAt, TakesAt};
ghost use Rattle.moka_cache.specs.Asked.{AsksNothing, CanTest, MayAnswer, Untested};
ghost use Rattle.moka_cache.specs.Inits.{GivesOption, GivesResult, GivesValue};

use crate::asked::Asked;
use crate::init::Init;
use futures::task::{Context, Poll};
use moka_facts::Fact;
use moka_hist::{Entry, Told};

/// An initializer that is asked for a value. Once it gave one it is gone, so that it is never
/// polled again.
#[derive(Drop)]
pub struct ByInit<I> {
    pub(crate) init: Option<I>,
}

impl<K: Eq, V, E, I: Init<V>, P: Fact<K, V>> Asked<K, V, E, P> for ByInit<I> {
    ghost can_poll = { λ asked. IfSome asked.init I.can_poll };

    ghost gives = { GivesValue I.gives };

    ghost pends = { λ old new. IsSomeAnd old.init (λ init. IsSomeAnd new.init (I.pends init)) };

    ghost begins = { λ old found new. new ≡ old };

    fn is_somebody(&self) -> bool {
        true
    }

    fn begin(&mut self, _found: Option<&Entry<K, V>>) {}

    ghost tests = { λ asked. Untested };

    ghost asks = { AsksNothing };

    fn replaces(&mut self, _value: &V) -> bool {
        false
    }

    fn poll(&mut self, cx: &mut Context<'_>) -> Poll<Option<Told<V, E>>> {
        match &mut self.init {
            Some(init) => match init.poll(cx) {
                Poll::Ready(value) => {
                    self.init = None;
                    Poll::Ready(Some(Told::Value(value)))
                }
                Poll::Pending => Poll::Pending,
            },
            None => Poll::Ready(None),
        }
    }
}

/// An initializer that is asked for a value, and may tell that there is none.
#[derive(Drop)]
pub struct ByOptionalInit<I> {
    pub(crate) init: Option<I>,
}

impl<K: Eq, V, E, I: Init<Option<V>>, P: Fact<K, V>> Asked<K, V, E, P> for ByOptionalInit<I> {
    ghost can_poll = { λ asked. IfSome asked.init I.can_poll };

    ghost gives = { GivesOption I.gives };

    ghost pends = { λ old new. IsSomeAnd old.init (λ init. IsSomeAnd new.init (I.pends init)) };

    ghost begins = { λ old found new. new ≡ old };

    fn is_somebody(&self) -> bool {
        true
    }

    fn begin(&mut self, _found: Option<&Entry<K, V>>) {}

    ghost tests = { λ asked. Untested };

    ghost asks = { AsksNothing };

    fn replaces(&mut self, _value: &V) -> bool {
        false
    }

    fn poll(&mut self, cx: &mut Context<'_>) -> Poll<Option<Told<V, E>>> {
        match &mut self.init {
            Some(init) => match init.poll(cx) {
                Poll::Ready(Some(value)) => {
                    self.init = None;
                    Poll::Ready(Some(Told::Value(value)))
                }
                Poll::Ready(None) => {
                    self.init = None;
                    Poll::Ready(Some(Told::Nothing))
                }
                Poll::Pending => Poll::Pending,
            },
            None => Poll::Ready(None),
        }
    }
}

/// An initializer that is asked for a value, and may tell an error.
#[derive(Drop)]
pub struct ByTryInit<I> {
    pub(crate) init: Option<I>,
}

impl<K: Eq, V, E, I: Init<Result<V, E>>, P: Fact<K, V>> Asked<K, V, E, P> for ByTryInit<I> {
    ghost can_poll = { λ asked. IfSome asked.init I.can_poll };

    ghost gives = { GivesResult I.gives };

    ghost pends = { λ old new. IsSomeAnd old.init (λ init. IsSomeAnd new.init (I.pends init)) };

    ghost begins = { λ old found new. new ≡ old };

    fn is_somebody(&self) -> bool {
        true
    }

    fn begin(&mut self, _found: Option<&Entry<K, V>>) {}

    ghost tests = { λ asked. Untested };

    ghost asks = { AsksNothing };

    fn replaces(&mut self, _value: &V) -> bool {
        false
    }

    fn poll(&mut self, cx: &mut Context<'_>) -> Poll<Option<Told<V, E>>> {
        match &mut self.init {
            Some(init) => match init.poll(cx) {
                Poll::Ready(Ok(value)) => {
                    self.init = None;
                    Poll::Ready(Some(Told::Value(value)))
                }
                Poll::Ready(Err(error)) => {
                    self.init = None;
                    Poll::Ready(Some(Told::Err(error)))
                }
                Poll::Pending => Poll::Pending,
            },
            None => Poll::Ready(None),
        }
    }
}

/// An initializer that is asked for a value, beside a replace test: a record on whose value that
/// holds is loaded again.
#[derive(Drop)]
pub struct ByInitIf<I, F> {
    pub(crate) init: ByInit<I>,
    pub(crate) replace_if: F,
}

impl<K: Eq, V, E, I: Init<V>, F: FnMut(&V) -> bool + Drop, P: Fact<K, V>> Asked<K, V, E, P>
    for ByInitIf<I, F> {
    ghost can_poll = { λ asked. IfSome asked.init.init I.can_poll
        × CanTest (CalledAt F.FnMut) P.holds (TakesAt F.FnMut) asked.replace_if };

    ghost gives = { λ asked. GivesValue I.gives asked.init };

    ghost pends = { λ old new.
        IsSomeAnd old.init.init (λ init. IsSomeAnd new.init.init (I.pends init)) };

    ghost begins = { λ old found new. new ≡ old };

    fn is_somebody(&self) -> bool {
        true
    }

    fn begin(&mut self, _found: Option<&Entry<K, V>>) {}

    ghost tests = { λ asked. MayAnswer (CalledAt F.FnMut) asked.replace_if };

    ghost asks = { λ old value replaced new. (new.init ≡ old.init)
        × CalledAt F.FnMut old.replace_if value replaced new.replace_if };

    fn replaces(&mut self, value: &V) -> bool {
        (self.replace_if)(value)
    }

    fn poll(&mut self, cx: &mut Context<'_>) -> Poll<Option<Told<V, E>>> {
        Asked::<K, V, E, P>::poll(&mut self.init, cx)
    }
}
