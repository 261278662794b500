//! Computes that are asked what is to be done.
ghost use Rattle.std.specs.Prelude.{IfSome, OnSome, Result};
ghost use Rattle.std.specs.Option.{option_copied};
ghost use Rattle.futures.specs.Poll.{IfReady, OnPending};
ghost use Rattle.futures.specs.Task.{IsArmed, Keeps};
ghost use Rattle.moka_hist.specs.declared.events.Op.{Op};
ghost use Rattle.moka_cache.specs.Asked.{AsksNothing, FoundSo, Untested};
ghost use Rattle.moka_cache.specs.Computes.{CanGo, CanPut, Ended, GivesOp, GivesPut, MayGive, Pends};
ghost use Rattle.moka_cache.specs.Computes.{WasBegun};

use crate::asked::Asked;
use crate::compute::Compute;
use futures::task::{Context, Poll};
use moka_facts::Fact;
use moka_hist::{Entry, Op, Told};
use std::mem;

/// How far a compute is: it was not started; it was; or it gave its output, and is gone, so that it
/// is never polled again.
#[derive(Drop)]
pub enum ComputeStage<C> {
    Fresh(C),
    Started(C),
    Over,
}

/// A compute that is asked what is to be done.
#[derive(Drop)]
pub struct ByCompute<C> {
    pub(crate) stage: ComputeStage<C>,
}

impl<K: Eq, V, E, C: Compute<K, V, E>, P: Fact<K, V>> Asked<K, V, E, P> for ByCompute<C> {
    ghost can_poll = { λ asked. CanGo P.holds C.can_start C.can_poll asked.stage };

    ghost gives = { GivesOp C.gives };

    ghost pends = { λ old new. Pends C.pends old.stage new.stage };

    ghost begins = { λ old found new. WasBegun C.started old.stage found new.stage };

    fn is_somebody(&self) -> bool {
        true
    }

    fn begin(&mut self, found: Option<&Entry<K, V>>) {
        start_in::<K, V, E, C, P>(&mut self.stage, found);
    }

    ghost tests = { λ asked. Untested };

    ghost asks = { AsksNothing };

    fn replaces(&mut self, _value: &V) -> bool {
        false
    }

    fn poll(&mut self, cx: &mut Context<'_>) -> Poll<Option<Told<V, E>>> {
        match poll_in::<K, V, E, C, P>(&mut self.stage, cx) {
            Poll::Ready(Some(Ok(op))) => Poll::Ready(Some(Told::Op(op))),
            Poll::Ready(Some(Err(error))) => Poll::Ready(Some(Told::Err(error))),
            Poll::Ready(None) => Poll::Ready(None),
            Poll::Pending => Poll::Pending,
        }
    }
}

/// A compute that is asked for a value to store, and tells to store it, whatever was found.
#[derive(Drop)]
pub struct ByUpsert<C> {
    pub(crate) stage: ComputeStage<C>,
}

impl<K: Eq, V, E, C: Compute<K, V, E>, P: Fact<K, V>> Asked<K, V, E, P> for ByUpsert<C> {
    ghost can_poll = { CanPut P.holds C.can_start C.can_poll C.gives };

    ghost gives = { GivesPut C.gives };

    ghost pends = { λ old new. Pends C.pends old.stage new.stage };

    ghost begins = { λ old found new. WasBegun C.started old.stage found new.stage };

    fn is_somebody(&self) -> bool {
        true
    }

    fn begin(&mut self, found: Option<&Entry<K, V>>) {
        start_in::<K, V, E, C, P>(&mut self.stage, found);
    }

    ghost tests = { λ asked. Untested };

    ghost asks = { AsksNothing };

    fn replaces(&mut self, _value: &V) -> bool {
        false
    }

    fn poll(&mut self, cx: &mut Context<'_>) -> Poll<Option<Told<V, E>>> {
        match poll_in::<K, V, E, C, P>(&mut self.stage, cx) {
            Poll::Ready(Some(Ok(Op::Put(value)))) => Poll::Ready(Some(Told::Value(value))),
            Poll::Ready(Some(_)) => unreachable!(),
            Poll::Ready(None) => Poll::Ready(None),
            Poll::Pending => Poll::Pending,
        }
    }
}

// Starts the compute with this, where that was not done before.
fn start_in<K: Eq, V, E, C: Compute<K, V, E>, P: Fact<K, V>>(
    stage: &mut ComputeStage<C>,
    found: Option<&Entry<K, V>>,
)
    requires go { CanGo P.holds C.can_start C.can_poll stage.old }
    requires so { FoundSo P.holds (option_copied found) }
    ensures begun { WasBegun C.started stage.old (option_copied found.entry) stage.new }
    ensures again { CanGo P.holds C.can_start C.can_poll stage.new }
    ensures same { (r : Result (Op V) E) → MayGive C.gives stage.new r
        → MayGive C.gives stage.old r }
{
    match mem::replace(stage, ComputeStage::Over) {
        ComputeStage::Fresh(fresh) => {
            let mut compute = fresh;
            compute.start(found);
            *stage = ComputeStage::Started(compute);
        }
        ComputeStage::Started(compute) => *stage = ComputeStage::Started(compute),
        ComputeStage::Over => {}
    }
}

// Goes on with the compute. Answers None where it was not started, or gave its output before.
fn poll_in<K: Eq, V, E, C: Compute<K, V, E>, P: Fact<K, V>>(
    stage: &mut ComputeStage<C>,
    cx: &mut Context<'_>,
) -> Poll<Option<Result<Op<V>, E>>>
    requires { CanGo P.holds C.can_start C.can_poll stage.old }
    // What it gives: it was started before, and is over.
    ensures value { IfReady result (λ r. IfSome r (MayGive C.gives stage.old)) }
    ensures ended { IfReady result (λ r. OnSome r (Ended stage.old stage.new)) }
    ensures same { (r : Result (Op V) E) → MayGive C.gives stage.new r
        → MayGive C.gives stage.old r }
    ensures again { CanGo P.holds C.can_start C.can_poll stage.new }
    ensures pending { OnPending result (Pends C.pends stage.old stage.new) }
    ensures armed { OnPending result (IsArmed cx.new) }
    ensures kept { Keeps cx.old cx.new }
{
    match stage {
        ComputeStage::Started(compute) => match compute.poll(cx) {
            Poll::Ready(output) => {
                *stage = ComputeStage::Over;
                Poll::Ready(Some(output))
            }
            Poll::Pending => Poll::Pending,
        },
        _ => Poll::Ready(None),
    }
}
